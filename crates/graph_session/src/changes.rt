// The edit that a command makes.
ghost use Rattle.std.specs.Prelude.{◌≡◌, None, Some, IfErr, IfOk, IsSome, IsTrue};
ghost use Rattle.script_lines.specs.declared.command.Command.TheVariants.{Add, Clear, OpenList, Override, Release, Remove, Set};
ghost use Rattle.answers.specs.Meaning.{answered, change};
ghost use Rattle.text_checks.specs.Tables.{named_checks};
ghost use Rattle.graph_session.specs.Changes.{change_of, change_refusals, change_reply as reply_of};
ghost use Rattle.graph_session.specs.Refusals.{Refused, SameChecks, asks_checks, first_of};
ghost use Rattle.graph_session.specs.Rules.{rules, tree_of};

use crate::permits::{
    judge_add, judge_clear, judge_open, judge_override, judge_release, judge_remove, judge_set,
};
use crate::reply::{Refusal, Reply};
use answers::{Answers, Edit};
use dictionary::Dictionary;
use fact_paths::SlotPath;
use script_lines::{Command, ValueText};
use std::alloc::Global;
use text_checks::CheckTable;

#[inline(always)]
fn edit_set(
    alloc: Global,
    dict: &Dictionary,
    answers: &Answers,
    checks: &CheckTable,
    path: &SlotPath,
    text: &ValueText,
) -> Result<Edit, Refusal>
    requires { SameChecks (rules dict.now) (named_checks checks.now) }
    ensures change { IfOk result (λ e. change_of (tree_of (rules dict.now)) (Set path.now text.now) ≡ Some (change e)) }
    ensures allowed { IfOk result (λ _. first_of (change_refusals (rules dict.now) (answered answers.now)
        (Set path.now text.now)) ≡ None) }
    ensures refused { IfErr result (λ r. Refused r
        (first_of (change_refusals (rules dict.now) (answered answers.now) (Set path.now text.now)))) }
{
    match judge_set(alloc, dict, answers, checks, path, text.as_str()) {
        Err(refusal) => Err(refusal),
        Ok((slot, value)) => Ok(Edit::Value(slot, Some(value))),
    }
}

fn edit_clear(dict: &Dictionary, answers: &Answers, path: &SlotPath) -> Result<Edit, Refusal>
    ensures change { IfOk result (λ e. change_of (tree_of (rules dict.now)) (Clear path.now) ≡ Some (change e)) }
    ensures allowed { IfOk result (λ _. first_of (change_refusals (rules dict.now) (answered answers.now)
        (Clear path.now)) ≡ None) }
    ensures refused { IfErr result (λ r. Refused r
        (first_of (change_refusals (rules dict.now) (answered answers.now) (Clear path.now)))) }
{
    match judge_clear(dict, answers, path) {
        Err(refusal) => Err(refusal),
        Ok(slot) => Ok(Edit::Value(slot, None)),
    }
}

fn edit_open(dict: &Dictionary, answers: &Answers, path: &SlotPath) -> Result<Edit, Refusal>
    ensures change { IfOk result (λ e. change_of (tree_of (rules dict.now)) (OpenList path.now) ≡ Some (change e)) }
    ensures allowed { IfOk result (λ _. first_of (change_refusals (rules dict.now) (answered answers.now)
        (OpenList path.now)) ≡ None) }
    ensures refused { IfErr result (λ r. Refused r
        (first_of (change_refusals (rules dict.now) (answered answers.now) (OpenList path.now)))) }
{
    match judge_open(dict, answers, path) {
        Err(refusal) => Err(refusal),
        Ok(list) => Ok(Edit::OpenList(list)),
    }
}

fn edit_add(dict: &Dictionary, answers: &Answers, path: &SlotPath) -> Result<Edit, Refusal>
    ensures change { IfOk result (λ e. change_of (tree_of (rules dict.now)) (Add path.now) ≡ Some (change e)) }
    ensures allowed { IfOk result (λ _. first_of (change_refusals (rules dict.now) (answered answers.now)
        (Add path.now)) ≡ None) }
    ensures refused { IfErr result (λ r. Refused r
        (first_of (change_refusals (rules dict.now) (answered answers.now) (Add path.now)))) }
{
    match judge_add(dict, answers, path) {
        Err(refusal) => Err(refusal),
        Ok(list) => Ok(Edit::AddNew(list)),
    }
}

fn edit_remove(
    dict: &Dictionary,
    answers: &Answers,
    path: &SlotPath,
    member: u32,
) -> Result<Edit, Refusal>
    ensures change { IfOk result (λ e. change_of (tree_of (rules dict.now)) (Remove path.now member)
        ≡ Some (change e)) }
    ensures allowed { IfOk result (λ _. first_of (change_refusals (rules dict.now) (answered answers.now)
        (Remove path.now member)) ≡ None) }
    ensures refused { IfErr result (λ r. Refused r
        (first_of (change_refusals (rules dict.now) (answered answers.now) (Remove path.now member)))) }
{
    match judge_remove(dict, answers, path, member) {
        Err(refusal) => Err(refusal),
        Ok(list) => Ok(Edit::Remove(list, member)),
    }
}

fn edit_override(
    alloc: Global,
    dict: &Dictionary,
    answers: &Answers,
    path: &SlotPath,
    text: &ValueText,
) -> Result<Edit, Refusal>
    ensures change { IfOk result (λ e. change_of (tree_of (rules dict.now)) (Override path.now text.now)
        ≡ Some (change e)) }
    ensures allowed { IfOk result (λ _. first_of (change_refusals (rules dict.now) (answered answers.now)
        (Override path.now text.now)) ≡ None) }
    ensures refused { IfErr result (λ r. Refused r
        (first_of (change_refusals (rules dict.now) (answered answers.now) (Override path.now text.now)))) }
{
    match judge_override(alloc, dict, answers, path, text.as_str()) {
        Err(refusal) => Err(refusal),
        Ok((slot, value)) => Ok(Edit::Override(slot, Some(value))),
    }
}

fn edit_release(dict: &Dictionary, answers: &Answers, path: &SlotPath) -> Result<Edit, Refusal>
    ensures change { IfOk result (λ e. change_of (tree_of (rules dict.now)) (Release path.now) ≡ Some (change e)) }
    ensures allowed { IfOk result (λ _. first_of (change_refusals (rules dict.now) (answered answers.now)
        (Release path.now)) ≡ None) }
    ensures refused { IfErr result (λ r. Refused r
        (first_of (change_refusals (rules dict.now) (answered answers.now) (Release path.now)))) }
{
    match judge_release(dict, answers, path) {
        Err(refusal) => Err(refusal),
        Ok(slot) => Ok(Edit::Override(slot, None)),
    }
}

/// The edit that the command makes, or its first refusal.
#[inline(always)]
pub fn edit_of(
    alloc: Global,
    dict: &Dictionary,
    answers: &Answers,
    checks: &CheckTable,
    command: &Command,
) -> Result<Edit, Refusal>
    requires makes_one { IsSome (change_of (tree_of (rules dict.now)) command.now) }
    requires same_checks { IsTrue (asks_checks command.now) → SameChecks (rules dict.now) (named_checks checks.now) }
    ensures change { IfOk result (λ e. change_of (tree_of (rules dict.now)) command.now ≡ Some (change e)) }
    ensures allowed { IfOk result (λ _. first_of (change_refusals (rules dict.now) (answered answers.now) command.now)
        ≡ None) }
    ensures refused { IfErr result (λ r. Refused r
        (first_of (change_refusals (rules dict.now) (answered answers.now) command.now))) }
{
    match command {
        Command::Set(path, text) => edit_set(alloc, dict, answers, checks, path, text),
        Command::Clear(path) => edit_clear(dict, answers, path),
        Command::OpenList(path) => edit_open(dict, answers, path),
        Command::Add(path) => edit_add(dict, answers, path),
        Command::Remove(path, member) => edit_remove(dict, answers, path, *member),
        Command::Override(path, text) => edit_override(alloc, dict, answers, path, text),
        Command::Release(path) => edit_release(dict, answers, path),
        Command::Undo
        | Command::Redo
        | Command::Get(_)
        | Command::Final(_)
        | Command::Stamp(_)
        | Command::Touched
        | Command::Missing(_)
        | Command::Watch(..)
        | Command::Unwatch(..)
        | Command::Quit => unreachable!(),
    }
}

/// The reply to a command that makes a change, where the next member had this number.
pub fn change_reply(command: &Command, number: u32) -> Reply
    ensures { result ≡ reply_of number command.now }
{
    match command {
        Command::Add(_) => Reply::Added(number),
        Command::Set(..)
        | Command::Clear(_)
        | Command::OpenList(_)
        | Command::Remove(..)
        | Command::Override(..)
        | Command::Release(_)
        | Command::Undo
        | Command::Redo
        | Command::Get(_)
        | Command::Final(_)
        | Command::Stamp(_)
        | Command::Touched
        | Command::Missing(_)
        | Command::Watch(..)
        | Command::Unwatch(..)
        | Command::Quit => Reply::Done,
    }
}
