// Runs a script, while it is read.
ghost use Rattle.std.specs.Prelude.{◌≡◌, ◌≢◌, ◌≤◌, ◌<◌, ◌+◌, ◌^◌, true};
ghost use Rattle.text_checks.specs.Tables.{named_checks};
ghost use Rattle.fact_watch.specs.Tables.{named_relations};
ghost use Rattle.script_lines.specs.Lines.{script_lines};
ghost use Rattle.graph_session.specs.Refusals.{SameChecks};
ghost use Rattle.script_runs.specs.Meanings.{IsBeginning, Meaning};
ghost use Rattle.script_runs.specs.ScriptEnds.{LeavesAnswers, ScriptEnds, ending_of, script_did};
ghost use Rattle.script_runs.specs.StepsOfScript.{StepsWithin};
ghost use Rattle.script_runs.specs.Exchange.{ExchangeLeaves};
ghost use Rattle.script_runs.specs.AnsweredLines.{LineOutputAs};
ghost use Rattle.script_runs.specs.declared.status.Status.TheVariants.{WriteFault};
ghost use Rattle.session_lines.specs.declared.progress.Progress.TheVariants.{Unwritten};

use crate::Status;
use crate::line_handler::LineHandler;
use crate::piece::answer_piece;
use fg_io::{Failed, Sink, Source};
use script_lines::Lines;
use session_lines::{Progress, Tables};
use std::alloc::Global;
use std::sync::ledger::Ledger;
use steps::Steps;

/// The most bytes of a script.
const LIMIT: usize = 67_108_864;

const BUFFER: usize = 4_096;

// Answers the last line.
fn finish<T: LineHandler, L: Ledger, K: Sink>(
    alloc: Global,
    handler: &mut T,
    tables: &Tables<'_>,
    lines: &mut Lines,
    out: &mut K,
    steps: &mut Steps<L>,
) -> Progress
    requires same_checks { SameChecks (T.goes_by handler.old) (named_checks tables.now.checks.now) }
    requires few { T.changes handler.old < 2 ^ 63 }
    ensures output { (m : Meaning) → T.means handler.old (named_relations tables.now.relations.now) m
        → LineOutputAs (T.means handler.new (named_relations tables.now.relations.now)) (K.output out.old) (K.output out.new) m
        (T.stands handler.new) (script_lines lines.old.so_far) result }
    ensures same_rules { T.goes_by handler.new ≡ T.goes_by handler.old }
    ensures later { (K.output out.old).faults ≤ (K.output out.new).faults }
    ensures quiet { T.is_quiet ≡ true → out.new ≡ out.old }
    ensures unfailing { T.is_quiet ≡ true → (m : Meaning) → T.means handler.old (named_relations tables.now.relations.now) m
        → result ≢ Unwritten }
    ensures steps { (m : Meaning) → T.means handler.old (named_relations tables.now.relations.now) m → steps.new ≤ steps.old + m.steps T.most
        (script_lines lines.old.so_far) }
{
    let ready = lines.finish();
    handler.answer_ready(alloc, tables, ready, lines.line(), out, steps)
}

fn status_at_end(progress: Progress) -> Status
    ensures { result ≡ ending_of progress }
{
    match progress {
        Progress::More => Status::Done,
        Progress::Over => Status::Done,
        Progress::Unwritten => Status::WriteFault,
        Progress::OutOfMemory => Status::NoMemory,
    }
}

/// Runs a script, of which nothing was answered yet. It is read in pieces, and each line is answered before the next piece. Its
/// steps are at most those that the lines mean: of a session the engine's bound for each change that is accepted, at a desk also for
/// one that the session would accept and the desk refuses.
pub fn run<T: LineHandler, L: Ledger, S: Source<K>, K: Sink>(
    alloc: Global,
    handler: &mut T,
    tables: &Tables<'_>,
    script: &mut S,
    out: &mut K,
    steps: &mut Steps<L>,
) -> Status
    requires same_checks { SameChecks (T.goes_by handler.old) (named_checks tables.now.checks.now) }
    requires unchanged { T.changes handler.old ≡ 0 }
    requires meant { (m : Meaning) × IsBeginning m × T.means handler.old (named_relations tables.now.relations.now) m }
    ensures ends { (m : Meaning) → IsBeginning m → T.means handler.old (named_relations tables.now.relations.now) m
        → ScriptEnds m (script_did (S.input script.old) (S.input script.new) (K.output out.old) (K.output out.new))
        result }
    ensures leaves { (m : Meaning) → IsBeginning m → T.means handler.old (named_relations tables.now.relations.now) m
        → LeavesAnswers m (S.input script.old).left (T.stands handler.new) result }
    ensures calls { (m : Meaning) → IsBeginning m → T.means handler.old (named_relations tables.now.relations.now) m
        → ExchangeLeaves S.pulled K.output m out.old out.new script.old script.new (T.stands handler.new) result }
    ensures quiet { T.is_quiet ≡ true → out.new ≡ out.old }
    ensures unfailing { T.is_quiet ≡ true → result ≢ WriteFault }
    ensures same_rules { T.goes_by handler.new ≡ T.goes_by handler.old }
    ensures steps { (m : Meaning) → IsBeginning m → T.means handler.old (named_relations tables.now.relations.now) m → StepsWithin T.most m
        (S.input script.old).left (S.input script.new).left steps.old steps.new }
{
    let mut lines = Lines::new();
    let mut taken = 0usize;
    let mut buf = [0u8; BUFFER];
    while taken < LIMIT {
        let room = BUFFER.min(LIMIT - taken);
        match script.pull(out, &mut buf[..room]) {
            Ok(0) => {
                return status_at_end(finish(alloc, handler, tables, &mut lines, out, steps));
            }
            Ok(count) => {
                match answer_piece(
                    alloc,
                    handler,
                    tables,
                    &mut lines,
                    out,
                    &buf[..count],
                    steps,
                ) {
                    Progress::More => taken += count,
                    Progress::Over => return Status::Done,
                    Progress::Unwritten => return Status::WriteFault,
                    Progress::OutOfMemory => return Status::NoMemory,
                }
            }
            Err(Failed) => return Status::ReadFault,
        }
    }
    match script.pull(out, &mut buf[..1]) {
        Ok(0) => status_at_end(finish(alloc, handler, tables, &mut lines, out, steps)),
        Ok(_) => Status::ScriptTooLong,
        Err(Failed) => Status::ReadFault,
    }
}
