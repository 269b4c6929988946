// Decides which lines of a carried text are kept over a dictionary.
ghost use Rattle.std.specs.Prelude.{◌≡◌, IfErr, IfOk, option_map, string_bytes};
ghost use Rattle.text_checks.specs.Tables.{named_checks};
ghost use Rattle.dict_source.specs.Finding.{IsNumber};
ghost use Rattle.answers.specs.Meaning.{answered};
ghost use Rattle.answers.specs.declared.edit.Side.TheVariants.{Answer};
ghost use Rattle.dict_meaning.specs.Fits.{takes};
ghost use Rattle.graph_session.specs.Naming.{fact_of, named_fact, slot_of};
ghost use Rattle.graph_session.specs.Refusals.{SameChecks};
ghost use Rattle.graph_session.specs.Rules.{rules, tree_of};
ghost use Rattle.save_file.specs.Carrying.{kept_collection, kept_value};
ghost use Rattle.save_file.specs.Keeping.{IsPlaced, taken_value as value_taken};
ghost use Rattle.saved_text.specs.declared.fault.LoadFault.TheVariants as faults;

use answers::{Answers, Side};
use dictionary::Dictionary;
use fact_paths::SlotPath;
use fact_values::{Slot, Value};
use graph_session::{
    find_slot, is_answered, is_list, is_overridden, is_want_of_memory, judge_value, read_value,
};
use saved_text::{EntryLine, ListLine, LoadFault};
use std::alloc::Global;
use text_checks::CheckTable;
use value_text::TextFault;

/// The number of the path's fact.
pub fn find_fact(dict: &Dictionary, path: &SlotPath) -> Option<u32>
    ensures { result ≡ named_fact (tree_of (rules dict.now)) path.now }
{
    match path {
        SlotPath::Global(name) => dict.source().find_global(name),
        SlotPath::Member(collection, _, name) => dict.source().find_member(collection, name),
    }
}

/// The writable collection of the list's name.
pub fn collection_of(dict: &Dictionary, line: &ListLine) -> Option<u32>
    ensures { result ≡ kept_collection (tree_of (rules dict.now)) line.now.name }
{
    match dict.source().find_global(&line.name) {
        None => None,
        Some(fact) => {
            if is_list(dict, fact) {
                Some(fact)
            } else {
                None
            }
        }
    }
}

// The value of an answer that the text spells, where nothing refuses it.
fn answer_of(
    alloc: Global,
    dict: &Dictionary,
    checks: &CheckTable,
    fact: u32,
    text: &str,
) -> Result<Option<Value>, LoadFault>
    requires number { IsNumber (tree_of (rules dict.now)).facts fact }
    requires same_checks { SameChecks (rules dict.now) (named_checks checks.now) }
    ensures value { IfOk result (λ o. o ≡ kept_value (rules dict.now) Answer fact text.now) }
    ensures memory { IfErr result (λ fault. fault ≡ faults.NoMemory) }
{
    if !is_answered(dict, fact) {
        return Ok(None);
    }
    match judge_value(alloc, dict, checks, fact, text) {
        Ok(value) => Ok(Some(value)),
        Err(refusal) => {
            if is_want_of_memory(refusal) {
                Err(LoadFault::NoMemory)
            } else {
                Ok(None)
            }
        }
    }
}

// Whether the slots of the fact may have a value on the side.
fn may_have(dict: &Dictionary, side: Side, fact: u32) -> bool
    ensures { result ≡ takes side (tree_of (rules dict.now)) fact }
{
    match side {
        Side::Answer => is_answered(dict, fact),
        Side::Override => is_overridden(dict, fact),
    }
}

/// The value that the text gives the fact's slots on the side, by the type of the fact alone.
pub fn taken_value(
    alloc: Global,
    dict: &Dictionary,
    side: Side,
    fact: u32,
    text: &str,
) -> Result<Option<Value>, LoadFault>
    requires { IsNumber (tree_of (rules dict.now)).facts fact }
    ensures value { IfOk result (λ o. o ≡ value_taken (tree_of (rules dict.now)) side fact text.now) }
    ensures memory { IfErr result (λ fault. fault ≡ faults.NoMemory) }
{
    if !may_have(dict, side, fact) {
        return Ok(None);
    }
    match read_value(alloc, dict, fact, text) {
        Ok(value) => Ok(Some(value)),
        Err(TextFault::BadValue) => Ok(None),
        Err(TextFault::NoMemory) => Err(LoadFault::NoMemory),
    }
}

// The value that the text gives the fact's slots on the side.
fn value_of(
    alloc: Global,
    dict: &Dictionary,
    checks: &CheckTable,
    side: Side,
    fact: u32,
    text: &str,
) -> Result<Option<Value>, LoadFault>
    requires number { IsNumber (tree_of (rules dict.now)).facts fact }
    requires same_checks { SameChecks (rules dict.now) (named_checks checks.now) }
    ensures value { IfOk result (λ o. o ≡ kept_value (rules dict.now) side fact text.now) }
    ensures memory { IfErr result (λ fault. fault ≡ faults.NoMemory) }
{
    match side {
        Side::Answer => answer_of(alloc, dict, checks, fact, text),
        Side::Override => taken_value(alloc, dict, side, fact, text),
    }
}

// Beside a value, the slot that has it.
fn at_slot(slot: Slot, value: Option<Value>) -> Option<(Slot, Value)>
    ensures { result ≡ option_map (λ v. (slot, v)) value }
{
    match value {
        None => None,
        Some(value) => Some((slot, value)),
    }
}

/// The slot that the entry names, and the value that it gives it, where it is kept.
pub fn worth_of(
    alloc: Global,
    dict: &Dictionary,
    checks: &CheckTable,
    answers: &Answers,
    line: &EntryLine,
) -> Result<Option<(Slot, Value)>, LoadFault>
    requires same_checks { SameChecks (rules dict.now) (named_checks checks.now) }
    requires placed { IsPlaced (tree_of (rules dict.now)) (answered answers.now) line.now.path }
    ensures worth { IfOk result (λ o. o ≡ option_map (λ v. (slot_of (tree_of (rules dict.now)) line.now.path, v))
        (kept_value (rules dict.now) line.now.side (fact_of (tree_of (rules dict.now)) line.now.path)
        (string_bytes line.now.text))) }
    ensures memory { IfErr result (λ fault. fault ≡ faults.NoMemory) }
{
    let Ok(slot) = find_slot(dict, answers, &line.path) else {
        return Ok(None);
    };
    match value_of(
        alloc,
        dict,
        checks,
        line.side,
        slot.fact,
        line.text.as_str(),
    ) {
        Err(fault) => Err(fault),
        Ok(value) => Ok(at_slot(slot, value)),
    }
}

/// The same, whatever limits and checks say.
pub fn taken_worth(
    alloc: Global,
    dict: &Dictionary,
    answers: &Answers,
    line: &EntryLine,
) -> Result<Option<(Slot, Value)>, LoadFault>
    requires placed { IsPlaced (tree_of (rules dict.now)) (answered answers.now) line.now.path }
    ensures worth { IfOk result (λ o. o ≡ option_map (λ v. (slot_of (tree_of (rules dict.now)) line.now.path, v))
        (value_taken (tree_of (rules dict.now)) line.now.side (fact_of (tree_of (rules dict.now)) line.now.path)
        (string_bytes line.now.text))) }
    ensures memory { IfErr result (λ fault. fault ≡ faults.NoMemory) }
{
    let Ok(slot) = find_slot(dict, answers, &line.path) else {
        return Ok(None);
    };
    match taken_value(alloc, dict, line.side, slot.fact, line.text.as_str()) {
        Err(fault) => Err(fault),
        Ok(value) => Ok(at_slot(slot, value)),
    }
}
