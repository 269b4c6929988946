// Judges whether the last line of a carried text is one of a saved text over the dictionary, behind those before it.
ghost use Rattle.std.specs.Prelude.{◌≡◌, ◌≤◌, ◌+◌, ◌*◌, ℕ, List, suc, bytes_eq, length, nat_lt, IfErr, IfOk, Some, None, option_copied, string_bytes, if◌then◌else◌};
ghost use Rattle.std.specs.List.{find};
ghost use Rattle.dict_source.specs.Finding.{IsNumber};
ghost use Rattle.value_text.specs.Values.{IsPrinted, printed};
ghost use Rattle.graph_session.specs.Rules.{rules, tree_of};
ghost use Rattle.save_file.specs.WhoseText.{JudgesLast};
ghost use Rattle.saved_text.specs.CarriedParsing.{line_of, lines_of};
ghost use Rattle.saved_text.specs.CarriedText.{CarriedLine, collection, entry, members_in};
ghost use Rattle.save_file.specs.Keeping.{taken_value as value_taken};
ghost use Rattle.save_file.specs.OwnLines.{IsPositionOfLast, counted_from as facts_counted_from, is_list_named, is_printed_of, member_place as place_of_member, members_named as named_members, place_in as place_among, position_behind};
ghost use Rattle.saved_text.specs.declared.fault.LoadFault.TheVariants.{NoMemory};

use crate::keeping::{collection_of, find_fact, taken_value};
use answers::Side;
use dictionary::Dictionary;
use fact_paths::{Name, SlotPath};
use fact_values::Value;
use saved_text::{CarriedRead, CarriedStage, EntryLine, ListLine, LoadFault, TextLine, members_of};
use std::alloc::Global;
use value_text::{Line, print};

// Whether the line is a list of this name.
fn is_named(line: &TextLine, name: &Name) -> bool
    ensures { result ≡ is_list_named name.now (line_of line.now) }
{
    match line {
        TextLine::Collection(list) => list.name.as_str() == name.as_str(),
        TextLine::Entry(_) => false,
    }
}

// The first list of this name.
fn list_named<'a>(lines: &'a [TextLine], name: &Name) -> Option<&'a TextLine>
    ensures { option_copied result ≡ find (λ l. is_list_named name.now (line_of l)) lines.now }
{
    lines.iter().find(|line| is_named(line, name))
}

// Its members.
fn members_named<'a>(read: &'a CarriedRead, name: &Name) -> &'a [u32]
    ensures members { result.now ≡ named_members name.now (lines_of read.now) }
    ensures few { length result.now ≤ 100 }
{
    match list_named(read.lines.as_slice(), name) {
        None => &[],
        Some(line) => members_of(line),
    }
}

// How many of them come before the member.
fn place_in(member: u32, members: &[u32]) -> u64
    requires { length members.now ≤ 100 }
    ensures place { result ≡ place_among member members.now }
    ensures low { result ≤ 100 }
{
    let mut place = 0;
    for other in members {
        if member == *other {
            return place;
        }
        place += 1;
    }
    place
}

fn member_place(read: &CarriedRead, path: &SlotPath) -> u64
    ensures place { result ≡ place_of_member (lines_of read.now) path.now }
    ensures low { result ≤ 100 }
{
    match path {
        SlotPath::Global(_) => 0,
        SlotPath::Member(name, member, _) => place_in(*member, members_named(read, name)),
    }
}

fn counted_from(dict: &Dictionary, side: Side) -> u64
    ensures number { result ≡ facts_counted_from (tree_of (rules dict.now)) side }
    ensures low { result ≤ 8589934592 }
{
    let first = dict.fact_count() as u64 + 1;
    match side {
        Side::Answer => first,
        Side::Override => first + first,
    }
}

// The position of an entry that names this fact.
fn entry_position(dict: &Dictionary, read: &CarriedRead, line: &EntryLine, fact: u32) -> u64
    ensures { result ≡ suc (101 * (facts_counted_from (tree_of (rules dict.now)) line.now.side + fact)
        + place_of_member (lines_of read.now) line.now.path) }
{
    101 * (counted_from(dict, line.side) + fact as u64) + member_place(read, &line.path) + 1
}

// A position behind another.
fn behind(position: u64, last: u64) -> Option<u64>
    ensures { result ≡ (if nat_lt last position then Some position else None) }
{
    if last < position {
        Some(position)
    } else {
        None
    }
}

fn list_behind(dict: &Dictionary, line: &ListLine, last: u64) -> Option<u64>
    ensures { (lines : List CarriedLine) → result ≡ position_behind (tree_of (rules dict.now)) lines last
        (collection line.now.name line.now.members) }
{
    match collection_of(dict, line) {
        None => None,
        Some(fact) => behind(101 * fact as u64 + 1, last),
    }
}

fn is_printed(dict: &Dictionary, value: &Value, text: &str) -> bool
    requires { IsPrinted (tree_of (rules dict.now)).enums value.now }
    ensures { result ≡ bytes_eq (printed (tree_of (rules dict.now)).enums value.now) text.now }
{
    let mut line = Line::new();
    print(value, dict.source().enums(), &mut line);
    line.bytes() == text.as_bytes()
}

// Whether the text is that of the value which it gives the fact on the side.
fn is_own_value(
    alloc: Global,
    dict: &Dictionary,
    side: Side,
    fact: u32,
    text: &str,
) -> Result<bool, LoadFault>
    requires { IsNumber (tree_of (rules dict.now)).facts fact }
    ensures own { IfOk result (λ own. own ≡ is_printed_of (tree_of (rules dict.now)) text.now
        (value_taken (tree_of (rules dict.now)) side fact text.now)) }
    ensures memory { IfErr result (λ fault. fault ≡ NoMemory) }
{
    match taken_value(alloc, dict, side, fact, text) {
        Err(fault) => Err(fault),
        Ok(None) => Ok(false),
        Ok(Some(value)) => Ok(is_printed(dict, &value, text)),
    }
}

fn entry_behind(
    alloc: Global,
    dict: &Dictionary,
    read: &CarriedRead,
    line: &EntryLine,
    last: u64,
) -> Result<Option<u64>, LoadFault>
    ensures position { IfOk result (λ o. o ≡ position_behind (tree_of (rules dict.now)) (lines_of read.now) last
        (entry line.now.side line.now.path (string_bytes line.now.text))) }
    ensures memory { IfErr result (λ fault. fault ≡ NoMemory) }
{
    let Some(fact) = find_fact(dict, &line.path) else {
        return Ok(None);
    };
    match is_own_value(alloc, dict, line.side, fact, line.text.as_str()) {
        Err(fault) => Err(fault),
        Ok(false) => Ok(None),
        Ok(true) => Ok(behind(entry_position(dict, read, line, fact), last)),
    }
}

fn line_behind(
    alloc: Global,
    dict: &Dictionary,
    read: &CarriedRead,
    line: &TextLine,
    last: u64,
) -> Result<Option<u64>, LoadFault>
    ensures position { IfOk result (λ o. o ≡ position_behind (tree_of (rules dict.now)) (lines_of read.now) last
        (line_of line.now)) }
    ensures memory { IfErr result (λ fault. fault ≡ NoMemory) }
{
    match line {
        TextLine::Collection(list) => Ok(list_behind(dict, list, last)),
        TextLine::Entry(entry) => entry_behind(alloc, dict, read, entry, last),
    }
}

// The position of the last line, where it is behind the last position.
fn judge_last(
    alloc: Global,
    dict: &Dictionary,
    read: &CarriedRead,
    last: u64,
) -> Result<Option<u64>, LoadFault>
    ensures position { IfOk result (IsPositionOfLast (tree_of (rules dict.now)) (lines_of read.now) last) }
    ensures memory { IfErr result (λ fault. fault ≡ NoMemory) }
{
    match read.lines.last() {
        None => Ok(Some(last)),
        Some(line) => line_behind(alloc, dict, read, line, last),
    }
}

/// The same of a stage, where the text is to be one of a dictionary.
pub fn judge(
    alloc: Global,
    whose: Option<&Dictionary>,
    stage: &CarriedStage,
    last: u64,
) -> Result<Option<u64>, LoadFault>
    ensures position { IfOk result (JudgesLast (option_copied whose.entry) stage.now last) }
    ensures memory { IfErr result (λ fault. fault ≡ NoMemory) }
{
    match whose {
        None => Ok(Some(last)),
        Some(dict) => match stage {
            CarriedStage::Opening => Ok(Some(last)),
            CarriedStage::Number => Ok(Some(last)),
            CarriedStage::Lines(read) => judge_last(alloc, dict, read, last),
            CarriedStage::Whole(_) => Ok(Some(last)),
        },
    }
}
