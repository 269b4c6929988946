// Runs a list of commands, one after another.
ghost use Rattle.std.specs.Prelude.{◌≡◌, ◌+◌, ◌≤◌, ◌^◌, length, IfOk, OnErr, OnOk};
ghost use Rattle.text_checks.specs.Tables.{named_checks};
ghost use Rattle.graph_session.specs.Refusals.{SameChecks};
ghost use Rattle.graph_session.specs.Rules.{rules};
ghost use Rattle.graph_session.specs.Run.{IsAfterSome, ended, is_memory as wants_memory, memory_said, replies};
ghost use Rattle.graph_session.specs.SessionView.{session_state};

use crate::reply::{Refusal, Reply};
use crate::session::Session;
use dictionary::FactEngine;
use fact_values::NoMemory;
use script_lines::Command;
use std::alloc::Global;
use std::sync::ledger::Ledger;
use steps::Steps;
use text_checks::CheckTable;

// Whether memory was wanting.
fn is_memory(said: &Result<Reply, Refusal>) -> bool
    ensures { result ≡ memory_said said.now }
{
    match said {
        Ok(_) => false,
        Err(refusal) => is_want_of_memory(*refusal),
    }
}

/// Whether the refusal is want of memory, which no rule of a session says.
pub fn is_want_of_memory(refusal: Refusal) -> bool
    ensures { result ≡ wants_memory refusal }
{
    match refusal {
        Refusal::NoMemory => true,
        Refusal::UnknownFact
        | Refusal::NoMember
        | Refusal::WrongKind
        | Refusal::BadValue
        | Refusal::Limit(_)
        | Refusal::Check(_)
        | Refusal::Full
        | Refusal::AlreadyOpen
        | Refusal::NotAnswered
        | Refusal::NoOverride
        | Refusal::NothingToUndo
        | Refusal::NothingToRedo
        | Refusal::NoStamps => false,
    }
}

/// The answers to the commands, in their order. For want of memory it stops behind some first commands, which are carried out.
pub fn run<E: FactEngine, L: Ledger>(
    alloc: Global,
    session: &mut Session<E>,
    commands: &[Command],
    checks: &CheckTable,
    steps: &mut Steps<L>,
) -> Result<Vec<Result<Reply, Refusal>>, NoMemory>
    requires same_checks { SameChecks (rules session.old.dict) (named_checks checks.now) }
    requires few { session.old.changes + length commands.now ≤ 2 ^ 63 }
    ensures replies { IfOk result (λ rs. rs.items ≡ replies (rules session.old.dict) (session_state session.old)
        commands.now) }
    ensures ended { OnOk result (session_state session.new ≡ ended (rules session.old.dict) (session_state session.old)
        commands.now) }
    ensures stopped { OnErr result (IsAfterSome (rules session.old.dict) (session_state session.old) commands.now
        (session_state session.new)) }
    ensures dict { session.new.dict ≡ session.old.dict }
{
    let mut all = Vec::new(alloc);
    for command in commands {
        let said = session.command(command, checks, steps);
        if is_memory(&said) {
            return Err(NoMemory);
        }
        all.push(said)?;
    }
    Ok(all)
}
