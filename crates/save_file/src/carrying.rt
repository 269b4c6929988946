// Carries a saved text to another dictionary.
ghost use Rattle.std.specs.Prelude.{◌≡◌, ◌+◌, ◌<◌, ◌++◌, ◌∷◌, [], Some, ◌≤◌, IfErr, IfOk, OnOk, is_some, length, map, string_bytes};
ghost use Rattle.answers.specs.Meaning.{answered};
ghost use Rattle.text_checks.specs.Tables.{named_checks};
ghost use Rattle.graph_session.specs.Naming.{fact_of};
ghost use Rattle.graph_session.specs.Refusals.{SameChecks};
ghost use Rattle.graph_session.specs.Rules.{rules, tree_of};
ghost use Rattle.saved_text.specs.CarriedParsing.{line_of, text_of};
ghost use Rattle.saved_text.specs.CarriedText.{IsCarried};
ghost use Rattle.save_file.specs.Carrying.{IsCarry, IsCarryOf, RefusesCarried, keeps, kept_collection, kept_value, numbers_failing};
ghost use Rattle.save_file.specs.Keeping.{ArePlaced, IsLinePlaced, IsPlaced, entered, noted, with_line, with_value};
ghost use Rattle.saved_text.specs.declared.fault.LoadFault.TheVariants.{NoMemory};

use crate::carried_text::read_lines;
use crate::entering::set_value;
use crate::keeping::{collection_of, worth_of};
use crate::opening::open_kept;
use answers::Answers;
use dictionary::Dictionary;
use saved_text::{CarriedRead, EntryLine, ListLine, LoadFault, TextLine};
use std::alloc::Global;
use text_checks::CheckTable;

/// What was carried.
#[derive(Drop)]
pub struct Carried {
    /// The answers of the lines that are kept.
    pub answers: Answers,
    /// The numbers of the others, from 1, in their order.
    pub dropped: Vec<u32>,
}

fn note(number: u32, dropped: &mut Vec<u32>) -> Result<(), LoadFault>
    ensures noted { OnOk result (dropped.new.items ≡ dropped.old.items ++ number ∷ []) }
    ensures memory { IfErr result (λ fault. fault ≡ NoMemory) }
{
    match dropped.push(number) {
        Err(_) => Err(LoadFault::NoMemory),
        Ok(()) => Ok(()),
    }
}

// Notes the number of a list that is dropped.
fn note_list(
    dict: &Dictionary,
    line: &ListLine,
    number: u32,
    dropped: &mut Vec<u32>,
) -> Result<(), LoadFault>
    ensures noted { OnOk result (dropped.new.items ≡ noted (is_some (kept_collection (tree_of (rules dict.now))
        line.now.name)) number dropped.old.items) }
    ensures memory { IfErr result (λ fault. fault ≡ NoMemory) }
{
    match collection_of(dict, line) {
        Some(_) => Ok(()),
        None => note(number, dropped),
    }
}

// Gives a slot the value of an entry that is kept, and notes the number of another.
fn keep_entry(
    alloc: Global,
    dict: &Dictionary,
    checks: &CheckTable,
    line: &EntryLine,
    number: u32,
    carried: &mut Carried,
) -> Result<(), LoadFault>
    requires same_checks { SameChecks (rules dict.now) (named_checks checks.now) }
    requires placed { IsPlaced (tree_of (rules dict.now)) (answered carried.old.answers) line.now.path }
    ensures entered { OnOk result (answered carried.new.answers ≡ with_value (tree_of (rules dict.now)) line.now.side
        line.now.path (kept_value (rules dict.now) line.now.side (fact_of (tree_of (rules dict.now)) line.now.path)
        (string_bytes line.now.text)) (answered carried.old.answers)) }
    ensures noted { OnOk result (carried.new.dropped.items ≡ noted (is_some (kept_value (rules dict.now) line.now.side
        (fact_of (tree_of (rules dict.now)) line.now.path) (string_bytes line.now.text))) number
        carried.old.dropped.items) }
    ensures memory { IfErr result (λ fault. fault ≡ NoMemory) }
{
    match worth_of(alloc, dict, checks, &carried.answers, line) {
        Err(fault) => Err(fault),
        Ok(None) => note(number, &mut carried.dropped),
        Ok(Some((slot, value))) => { set_value(&mut carried.answers, line.side, slot, value) }
    }
}

fn keep_line(
    alloc: Global,
    dict: &Dictionary,
    checks: &CheckTable,
    line: &TextLine,
    number: u32,
    carried: &mut Carried,
) -> Result<(), LoadFault>
    requires same_checks { SameChecks (rules dict.now) (named_checks checks.now) }
    requires placed { IsLinePlaced (tree_of (rules dict.now)) (answered carried.old.answers) (line_of line.now) }
    ensures entered { OnOk result (answered carried.new.answers ≡ with_line (tree_of (rules dict.now))
        (kept_value (rules dict.now)) (answered carried.old.answers) (line_of line.now)) }
    ensures noted { OnOk result (carried.new.dropped.items ≡ noted (keeps (rules dict.now) (line_of line.now)) number
        carried.old.dropped.items) }
    ensures memory { IfErr result (λ fault. fault ≡ NoMemory) }
{
    match line {
        TextLine::Collection(list) => note_list(dict, list, number, &mut carried.dropped),
        TextLine::Entry(entry) => keep_entry(alloc, dict, checks, entry, number, carried),
    }
}

// Goes through the lines, of which the collections are open.
fn keep_lines(
    alloc: Global,
    dict: &Dictionary,
    checks: &CheckTable,
    lines: &[TextLine],
    carried: &mut Carried,
) -> Result<(), LoadFault>
    requires same_checks { SameChecks (rules dict.now) (named_checks checks.now) }
    requires placed { ArePlaced (tree_of (rules dict.now)) (answered carried.old.answers) (map line_of lines.now) }
    requires few { length lines.now + 3 < 4294967296 }
    ensures entered { OnOk result (answered carried.new.answers ≡ entered (tree_of (rules dict.now))
        (kept_value (rules dict.now)) (answered carried.old.answers) (map line_of lines.now)) }
    ensures dropped { OnOk result (carried.new.dropped.items ≡ carried.old.dropped.items ++ numbers_failing
        (keeps (rules dict.now)) 3 (map line_of lines.now)) }
    ensures memory { IfErr result (λ fault. fault ≡ NoMemory) }
{
    let mut number = 3;
    for line in lines {
        match keep_line(alloc, dict, checks, line, number, carried) {
            Err(fault) => return Err(fault),
            Ok(()) => number += 1,
        }
    }
    Ok(())
}

/// Carries lines that make a carried text.
pub fn carry_lines(
    alloc: Global,
    dict: &Dictionary,
    checks: &CheckTable,
    read: &CarriedRead,
) -> Result<Carried, LoadFault>
    requires same_checks { SameChecks (rules dict.now) (named_checks checks.now) }
    requires text { IsCarried (text_of read.now) }
    requires few { length read.now.lines.items + 3 < 4294967296 }
    ensures carried { IfOk result (λ c. IsCarryOf (rules dict.now) (text_of read.now) (answered c.answers)
        c.dropped.items) }
    ensures memory { IfErr result (λ fault. fault ≡ NoMemory) }
{
    let _accepted = dict.source();
    match open_kept(alloc, dict, read) {
        Err(fault) => Err(fault),
        Ok(answers) => {
            let dropped = Vec::new(alloc);
            let mut carried = Carried { answers, dropped };
            match keep_lines(alloc, dict, checks, read.lines.as_slice(), &mut carried) {
                Err(fault) => {
                    drop(carried);
                    Err(fault)
                }
                Ok(()) => Ok(carried),
            }
        }
    }
}

/// The answers of a saved text over another dictionary, as far as they may stand there, and the numbers of the lines that are
/// dropped. A text that was saved over any dictionary is carried, also where lines of a kind were put into another order or
/// their paths were renamed.
pub fn carry(
    alloc: Global,
    dict: &Dictionary,
    checks: &CheckTable,
    bytes: &[u8],
) -> Result<Carried, LoadFault>
    requires same_checks { SameChecks (rules dict.now) (named_checks checks.now) }
    requires short { length bytes.now < 4294967295 }
    ensures carried { IfOk result (λ c. IsCarry (rules dict.now) bytes.now (answered c.answers) c.dropped.items) }
    ensures refused { IfErr result (RefusesCarried bytes.now) }
{
    match read_lines(alloc, None, bytes) {
        Err(fault) => Err(fault),
        Ok(read) => carry_lines(alloc, dict, checks, &read),
    }
}
