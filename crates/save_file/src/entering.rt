// Puts the values of kept lines into the answers, slot by slot.
ghost use Rattle.std.specs.Prelude.{◌≡◌, IfErr, OnOk, Some, map, string_bytes};
ghost use Rattle.answers.specs.Change.{Fits, applied, sets};
ghost use Rattle.answers.specs.Meaning.{answered, change};
ghost use Rattle.graph_session.specs.Naming.{fact_of};
ghost use Rattle.graph_session.specs.Rules.{rules, tree_of};
ghost use Rattle.saved_text.specs.CarriedParsing.{line_of};
ghost use Rattle.save_file.specs.Keeping.{ArePlaced, IsLinePlaced, IsPlaced, entered, taken_value, with_line, with_value};
ghost use Rattle.saved_text.specs.declared.fault.LoadFault.TheVariants.{NoMemory};

use crate::keeping::taken_worth;
use answers::{Answers, Edit, Side};
use dictionary::Dictionary;
use fact_values::{Slot, Value};
use saved_text::{EntryLine, LoadFault, TextLine};
use std::alloc::Global;

// The edit that gives a slot a value.
fn edit_of(side: Side, slot: Slot, value: Value) -> Edit
    ensures { change result ≡ sets side slot (Some value) }
{
    match side {
        Side::Answer => Edit::Value(slot, Some(value)),
        Side::Override => Edit::Override(slot, Some(value)),
    }
}

/// Gives a slot a value.
pub fn set_value(
    answers: &mut Answers,
    side: Side,
    slot: Slot,
    value: Value,
) -> Result<(), LoadFault>
    requires { Fits (sets side slot (Some value)) (answered answers.old) }
    ensures new { OnOk result (answered answers.new ≡ applied (sets side slot (Some value)) (answered answers.old)) }
    ensures memory { IfErr result (λ fault. fault ≡ NoMemory) }
{
    match answers.apply(edit_of(side, slot, value)) {
        Err(unapplied) => {
            drop(unapplied);
            Err(LoadFault::NoMemory)
        }
        Ok(back) => {
            drop(back);
            Ok(())
        }
    }
}

// Gives a slot the value of an entry, limits or not.
fn enter_entry(
    alloc: Global,
    dict: &Dictionary,
    line: &EntryLine,
    answers: &mut Answers,
) -> Result<(), LoadFault>
    requires placed { IsPlaced (tree_of (rules dict.now)) (answered answers.old) line.now.path }
    ensures entered { OnOk result (answered answers.new ≡ with_value (tree_of (rules dict.now)) line.now.side line.now.path
        (taken_value (tree_of (rules dict.now)) line.now.side (fact_of (tree_of (rules dict.now)) line.now.path)
        (string_bytes line.now.text)) (answered answers.old)) }
    ensures memory { IfErr result (λ fault. fault ≡ NoMemory) }
{
    match taken_worth(alloc, dict, answers, line) {
        Err(fault) => Err(fault),
        Ok(None) => Ok(()),
        Ok(Some((slot, value))) => set_value(answers, line.side, slot, value),
    }
}

fn enter(
    alloc: Global,
    dict: &Dictionary,
    line: &TextLine,
    answers: &mut Answers,
) -> Result<(), LoadFault>
    requires placed { IsLinePlaced (tree_of (rules dict.now)) (answered answers.old) (line_of line.now) }
    ensures entered { OnOk result (answered answers.new ≡ with_line (tree_of (rules dict.now))
        (taken_value (tree_of (rules dict.now))) (answered answers.old) (line_of line.now)) }
    ensures memory { IfErr result (λ fault. fault ≡ NoMemory) }
{
    match line {
        TextLine::Collection(_) => Ok(()),
        TextLine::Entry(entry) => enter_entry(alloc, dict, entry, answers),
    }
}

/// Goes through lines whose collections are open.
pub fn enter_all(
    alloc: Global,
    dict: &Dictionary,
    lines: &[TextLine],
    answers: &mut Answers,
) -> Result<(), LoadFault>
    requires placed { ArePlaced (tree_of (rules dict.now)) (answered answers.old) (map line_of lines.now) }
    ensures entered { OnOk result (answered answers.new ≡ entered (tree_of (rules dict.now))
        (taken_value (tree_of (rules dict.now))) (answered answers.old) (map line_of lines.now)) }
    ensures memory { IfErr result (λ fault. fault ≡ NoMemory) }
{
    for line in lines {
        match enter(alloc, dict, line, answers) {
            Err(fault) => return Err(fault),
            Ok(()) => {}
        }
    }
    Ok(())
}
