// Whether a command may be carried out: the first refusal, or what it is carried out with.
ghost use Rattle.std.specs.Prelude.{◌≡◌, None, Some, IfErr, IfOk};
ghost use Rattle.answers.specs.Meaning.{answered};
ghost use Rattle.text_checks.specs.Tables.{named_checks};
ghost use Rattle.graph_session.specs.Judging.{is_full as full, value_spelled};
ghost use Rattle.graph_session.specs.Naming.{fact_of, slot_of};
ghost use Rattle.graph_session.specs.Refusals.{Refused, SameChecks, add_refusals, clear_refusals, decided, first_of, open_refusals, override_refusals, release_refusals, remove_refusals, set_refusals};
ghost use Rattle.graph_session.specs.Rules.{rules, tree_of};

use crate::judging::{judge_value, read_value};
use crate::kinds::{is_answered, is_list, is_overridden};
use crate::naming::{find_slot, is_member};
use crate::reply::Refusal;
use answers::Answers;
use dictionary::Dictionary;
use fact_paths::SlotPath;
use fact_values::{Slot, Value};
use std::alloc::Global;
use text_checks::CheckTable;
use value_text::TextFault;

/// The slot whose answer is to be taken away.
pub fn judge_clear(dict: &Dictionary, answers: &Answers, path: &SlotPath) -> Result<Slot, Refusal>
    ensures { result ≡ decided (first_of (clear_refusals (rules dict.now) (answered answers.now) path.now))
        (slot_of (tree_of (rules dict.now)) path.now) }
{
    let slot = find_slot(dict, answers, path)?;
    if !is_answered(dict, slot.fact) {
        return Err(Refusal::WrongKind);
    }
    if answers.value(slot).is_none() {
        return Err(Refusal::NotAnswered);
    }
    Ok(slot)
}

/// The collection that is to be opened.
pub fn judge_open(dict: &Dictionary, answers: &Answers, path: &SlotPath) -> Result<u32, Refusal>
    ensures { result ≡ decided (first_of (open_refusals (rules dict.now) (answered answers.now) path.now))
        (fact_of (tree_of (rules dict.now)) path.now) }
{
    let slot = find_slot(dict, answers, path)?;
    if !is_list(dict, slot.fact) {
        return Err(Refusal::WrongKind);
    }
    if answers.members(slot.fact).is_some() {
        return Err(Refusal::AlreadyOpen);
    }
    Ok(slot.fact)
}

// Whether no member can be added to the collection.
fn is_full(answers: &Answers, list: u32) -> bool
    ensures { result ≡ full (answered answers.now) list }
{
    let count = match answers.members(list) {
        None => 0,
        Some(members) => members.len(),
    };
    count >= 100 || answers.next_number() >= 1_000_001
}

/// The collection that is to get a member.
pub fn judge_add(dict: &Dictionary, answers: &Answers, path: &SlotPath) -> Result<u32, Refusal>
    ensures { result ≡ decided (first_of (add_refusals (rules dict.now) (answered answers.now) path.now))
        (fact_of (tree_of (rules dict.now)) path.now) }
{
    let slot = find_slot(dict, answers, path)?;
    if !is_list(dict, slot.fact) {
        return Err(Refusal::WrongKind);
    }
    if is_full(answers, slot.fact) {
        return Err(Refusal::Full);
    }
    Ok(slot.fact)
}

/// The collection from which the member is to be taken.
pub fn judge_remove(
    dict: &Dictionary,
    answers: &Answers,
    path: &SlotPath,
    member: u32,
) -> Result<u32, Refusal>
    ensures { result ≡ decided (first_of (remove_refusals (rules dict.now) (answered answers.now) path.now member))
        (fact_of (tree_of (rules dict.now)) path.now) }
{
    let slot = find_slot(dict, answers, path)?;
    if !is_list(dict, slot.fact) {
        return Err(Refusal::WrongKind);
    }
    if !is_member(answers, slot.fact, member) {
        return Err(Refusal::NoMember);
    }
    Ok(slot.fact)
}

/// The slot whose override is to be taken away.
pub fn judge_release(dict: &Dictionary, answers: &Answers, path: &SlotPath) -> Result<Slot, Refusal>
    ensures { result ≡ decided (first_of (release_refusals (rules dict.now) (answered answers.now) path.now))
        (slot_of (tree_of (rules dict.now)) path.now) }
{
    let slot = find_slot(dict, answers, path)?;
    if !is_overridden(dict, slot.fact) {
        return Err(Refusal::WrongKind);
    }
    if answers.override_of(slot).is_none() {
        return Err(Refusal::NoOverride);
    }
    Ok(slot)
}

/// The slot that is to be answered, and the value.
#[inline(always)]
pub fn judge_set(
    alloc: Global,
    dict: &Dictionary,
    answers: &Answers,
    checks: &CheckTable,
    path: &SlotPath,
    text: &str,
) -> Result<(Slot, Value), Refusal>
    requires { SameChecks (rules dict.now) (named_checks checks.now) }
    ensures slot { IfOk result (λ p. p.0 ≡ slot_of (tree_of (rules dict.now)) path.now) }
    ensures value { IfOk result (λ p. value_spelled (tree_of (rules dict.now)) p.0.fact text.now ≡ Some p.1) }
    ensures allowed { IfOk result (λ _. first_of (set_refusals (rules dict.now) (answered answers.now) path.now
        text.now) ≡ None) }
    ensures refused { IfErr result (λ r. Refused r
        (first_of (set_refusals (rules dict.now) (answered answers.now) path.now text.now))) }
{
    let slot = find_slot(dict, answers, path)?;
    if !is_answered(dict, slot.fact) {
        return Err(Refusal::WrongKind);
    }
    match judge_value(alloc, dict, checks, slot.fact, text) {
        Err(refusal) => Err(refusal),
        Ok(value) => Ok((slot, value)),
    }
}

/// The slot that is to be overridden, and the value.
pub fn judge_override(
    alloc: Global,
    dict: &Dictionary,
    answers: &Answers,
    path: &SlotPath,
    text: &str,
) -> Result<(Slot, Value), Refusal>
    ensures slot { IfOk result (λ p. p.0 ≡ slot_of (tree_of (rules dict.now)) path.now) }
    ensures value { IfOk result (λ p. value_spelled (tree_of (rules dict.now)) p.0.fact text.now ≡ Some p.1) }
    ensures allowed { IfOk result (λ _. first_of (override_refusals (rules dict.now) (answered answers.now) path.now
        text.now) ≡ None) }
    ensures refused { IfErr result (λ r. Refused r
        (first_of (override_refusals (rules dict.now) (answered answers.now) path.now text.now))) }
{
    let slot = find_slot(dict, answers, path)?;
    if !is_overridden(dict, slot.fact) {
        return Err(Refusal::WrongKind);
    }
    match read_value(alloc, dict, slot.fact, text) {
        Err(TextFault::BadValue) => Err(Refusal::BadValue),
        Err(TextFault::NoMemory) => Err(Refusal::NoMemory),
        Ok(value) => Ok((slot, value)),
    }
}
