// The lines of a carried text that were read so far, and how the next one is taken.
ghost use Rattle.std.specs.Prelude.{◌≡◌, ◌||◌, ◌++◌, ℕ, List, codes, map, nat_eq, not, bytes_eq, IfErr, IfOk, OnOk, string_bytes};
ghost use Rattle.std.specs.List.{list_all, list_any};
ghost use Rattle.fact_paths.specs.Paths.{slot_path_text};
ghost use Rattle.saved_text.specs.CarriedParsing.{IsRead, IsWith, Takes, line_of, may_stand as may_stand_behind, new_or_fault, side_rank as rank_of_side};
ghost use Rattle.saved_text.specs.CarriedText.{HasItsForm, IsShort, key_text, lists_member as lists_the_member, lists_member_of, members_in, rank};
ghost use Rattle.saved_text.specs.EntryKeys.{has};
ghost use Rattle.saved_text.specs.Parsing.{are_below as are_below_next, are_others as are_other_members};
ghost use Rattle.saved_text.specs.SavedText.{side_word as word_of_side};
ghost use Rattle.script_lines.specs.declared.fault.LineFault.TheVariants.{NoMemory};

use crate::carried_line::{EntryLine, ListLine, TextLine, members_of};
use crate::entries::side_word;
use crate::entry_keys::EntryKeys;
use answers::Side;
use fact_paths::{Name, SlotPath};
use fact_values::Members;
use script_lines::LineFault;
use std::alloc::Global;

/// The most lists of a text.
const MOST_LISTS: usize = 32;

/// The number of the next member, and the lines so far; what they name, and the rank of the last.
#[derive(Drop)]
pub struct CarriedRead {
    pub next: u32,
    pub lines: Vec<TextLine>,
    pub keys: EntryKeys,
    pub rank: u32,
}

// Whether the member is one of the others.
fn is_among(member: u32, others: &[u32]) -> bool
    ensures { result ≡ list_any (nat_eq member) others.now }
{
    others.iter().any(|other| member == *other)
}

// Whether one of the members is one of the others.
fn has_one(others: &[u32], members: &[u32]) -> bool
    ensures { result ≡ list_any (λ m. list_any (nat_eq m) others.now) members.now }
{
    members.iter().any(|member| is_among(*member, others))
}

// Whether none of the members is one of the others.
fn are_others(others: &[u32], members: &[u32]) -> bool
    ensures { result ≡ are_other_members others.now members.now }
{
    !has_one(others, members)
}

// Whether each of the members is below the next number.
fn are_below(next: u32, members: &Members) -> bool
    ensures { result ≡ are_below_next next members.now }
{
    members.as_slice().iter().all(|member| *member < next)
}

// Whether none of the lines lists one of the members.
fn are_new(members: &[u32], lines: &[TextLine]) -> bool
    ensures { result ≡ list_all (λ l. are_other_members members.now (members_in (line_of l))) lines.now }
{
    lines
        .iter()
        .all(|line| are_others(members, members_of(line)))
}

fn are_apart(members: &[u32], lines: &[TextLine]) -> bool
    ensures { result ≡ list_all (λ x. are_other_members members.now (members_in x)) (map line_of lines.now) }
{
    are_new(members, lines)
}

// Whether the line lists the member in the collection of this name.
fn lists_member(line: &TextLine, name: &Name, member: u32) -> bool
    ensures { result ≡ lists_the_member name.now member (line_of line.now) }
{
    match line {
        TextLine::Collection(list) => {
            list.name.as_str() == name.as_str() && is_among(member, list.members.as_slice())
        }
        TextLine::Entry(_) => false,
    }
}

// Whether one of the lines does.
fn have_member(lines: &[TextLine], name: &Name, member: u32) -> bool
    ensures { result ≡ list_any (λ l. lists_the_member name.now member (line_of l)) lines.now }
{
    lines.iter().any(|line| lists_member(line, name, member))
}

// Whether the member in the path is in the list of the path's collection.
fn is_listed(path: &SlotPath, lines: &[TextLine]) -> bool
    ensures { result ≡ lists_member_of (map line_of lines.now) path.now }
{
    match path {
        SlotPath::Global(_) => true,
        SlotPath::Member(name, member, _) => have_member(lines, name, *member),
    }
}

// The kind of the list and what it names.
fn list_key(alloc: Global, list: &ListLine) -> Result<String, LineFault>
    ensures key { IfOk result (λ key. string_bytes key ≡ codes "list /" ++ list.now.name) }
    ensures memory { IfErr result (λ fault. fault ≡ NoMemory) }
{
    let name = &list.name;
    match format!(in alloc; "list /{name}") {
        Ok(key) => Ok(key),
        Err(_) => Err(LineFault::NoMemory),
    }
}

// The same of an entry.
fn entry_key(alloc: Global, entry: &EntryLine) -> Result<String, LineFault>
    ensures key { IfOk result (λ key. string_bytes key ≡ word_of_side entry.now.side ++ slot_path_text entry.now.path) }
    ensures memory { IfErr result (λ fault. fault ≡ NoMemory) }
{
    let word = side_word(entry.side);
    let path = &entry.path;
    match format!(in alloc; "{word}{path}") {
        Ok(key) => Ok(key),
        Err(_) => Err(LineFault::NoMemory),
    }
}

/// The kind of the line and what it names.
pub fn key_of(alloc: Global, line: &TextLine) -> Result<String, LineFault>
    ensures key { IfOk result (λ key. string_bytes key ≡ key_text (line_of line.now)) }
    ensures memory { IfErr result (λ fault. fault ≡ NoMemory) }
{
    match line {
        TextLine::Collection(list) => list_key(alloc, list),
        TextLine::Entry(entry) => entry_key(alloc, entry),
    }
}

fn side_rank(side: Side) -> u32
    ensures { result ≡ rank_of_side side }
{
    match side {
        Side::Answer => 1,
        Side::Override => 2,
    }
}

fn rank_of(line: &TextLine) -> u32
    ensures { result ≡ rank (line_of line.now) }
{
    match line {
        TextLine::Collection(_) => 0,
        TextLine::Entry(entry) => side_rank(entry.side),
    }
}

// Whether the line may come next, but for what others name.
fn may_stand(read: &CarriedRead, line: &TextLine) -> bool
    ensures { result ≡ may_stand_behind read.now (line_of line.now) }
{
    match line {
        TextLine::Collection(list) => {
            read.rank == 0
                && read.lines.len() < MOST_LISTS
                && are_below(read.next, &list.members)
                && are_apart(list.members.as_slice(), read.lines.as_slice())
        }
        TextLine::Entry(entry) => {
            read.rank <= side_rank(entry.side) && is_listed(&entry.path, read.lines.as_slice())
        }
    }
}

fn add(read: &mut CarriedRead, line: TextLine) -> Result<(), LineFault>
    ensures read { OnOk result (IsWith read.old line read.new) }
    ensures memory { IfErr result (λ fault. fault ≡ NoMemory) }
{
    read.rank = rank_of(&line);
    match read.lines.push(line) {
        Err(_) => Err(LineFault::NoMemory),
        Ok(()) => Ok(()),
    }
}

// Notes what the line names, and tells whether it is new.
fn note_key(alloc: Global, keys: &mut EntryKeys, line: &TextLine) -> Result<bool, LineFault>
    ensures fresh { IfOk result (λ fresh. fresh ≡ not (has keys.old (key_text (line_of line.now)))) }
    ensures added { OnOk result ((text : List ℕ) → has keys.new text
        ≡ (bytes_eq text (key_text (line_of line.now)) || has keys.old text)) }
    ensures memory { IfErr result (λ fault. fault ≡ NoMemory) }
{
    match key_of(alloc, line) {
        Err(fault) => Err(fault),
        Ok(key) => keys.add(key),
    }
}

/// One more line.
pub fn take_line(alloc: Global, read: &mut CarriedRead, line: TextLine) -> Result<(), LineFault>
    requires sound { IsRead read.old }
    requires form { HasItsForm (line_of line) }
    requires short { IsShort (line_of line) }
    ensures { Takes read.old (line_of line) (new_or_fault read.new result) }
{
    if !may_stand(read, &line) {
        drop(line);
        return Err(LineFault::BadLine);
    }
    match note_key(alloc, &mut read.keys, &line) {
        Err(fault) => {
            drop(line);
            Err(fault)
        }
        Ok(false) => {
            drop(line);
            Err(LineFault::BadLine)
        }
        Ok(true) => add(read, line),
    }
}
