// Answers the lines that end in a piece of a script.
ghost use Rattle.std.specs.Prelude.{◌≡◌, ◌≢◌, ◌+◌, ◌<◌, ◌≤◌, ◌^◌, ◌++◌, length, true};
ghost use Rattle.text_checks.specs.Tables.{named_checks};
ghost use Rattle.fact_watch.specs.Tables.{named_relations};
ghost use Rattle.script_lines.specs.Lines.{HasNoNewline, ended_lines};
ghost use Rattle.graph_session.specs.Refusals.{SameChecks};
ghost use Rattle.script_runs.specs.Meanings.{IsBeginning, Meaning};
ghost use Rattle.session_lines.specs.declared.progress.Progress.TheVariants.{Unwritten};
ghost use Rattle.script_runs.specs.AnsweredLines.{PieceOutputAs};

use crate::line_handler::LineHandler;
use fg_io::Sink;
use script_lines::Lines;
use session_lines::{Progress, Tables};
use std::alloc::Global;
use std::sync::ledger::Ledger;
use steps::Steps;

/// Answers each line that ends in the bytes, in order, whoever answers them. A line makes one change at most.
pub fn answer_piece<T: LineHandler, L: Ledger, K: Sink>(
    alloc: Global,
    handler: &mut T,
    tables: &Tables<'_>,
    lines: &mut Lines,
    out: &mut K,
    bytes: &[u8],
    steps: &mut Steps<L>,
) -> Progress
    requires unended { HasNoNewline lines.old.so_far }
    requires same_checks { SameChecks (T.goes_by handler.old) (named_checks tables.now.checks.now) }
    requires few { T.changes handler.old + length bytes.now < 2 ^ 63 }
    ensures output { (m : Meaning) → IsBeginning m → T.means handler.old (named_relations tables.now.relations.now) m
        → PieceOutputAs (T.means handler.new (named_relations tables.now.relations.now)) (K.output out.old) (K.output out.new) m
        (T.stands handler.new) lines.old.so_far lines.new.so_far bytes.now result }
    ensures same_rules { T.goes_by handler.new ≡ T.goes_by handler.old }
    ensures few { T.changes handler.new ≤ T.changes handler.old + length bytes.now }
    ensures later { (K.output out.old).faults ≤ (K.output out.new).faults }
    ensures quiet { T.is_quiet ≡ true → out.new ≡ out.old }
    ensures unfailing { T.is_quiet ≡ true → (m : Meaning) → IsBeginning m
        → T.means handler.old (named_relations tables.now.relations.now) m → result ≢ Unwritten }
    ensures steps { (m : Meaning) → IsBeginning m → T.means handler.old (named_relations tables.now.relations.now) m
        → steps.new ≤ steps.old + m.steps T.most (ended_lines (lines.old.so_far ++ bytes.now)) }
{
    let mut rest = bytes;
    while !rest.is_empty() {
        let fed = lines.feed(rest);
        match handler.answer_ready(alloc, tables, fed.ready, lines.line(), out, steps) {
            Progress::More => {}
            Progress::Over => return Progress::Over,
            Progress::Unwritten => return Progress::Unwritten,
            Progress::OutOfMemory => return Progress::OutOfMemory,
        }
        rest = &rest[fed.taken..];
    }
    Progress::More
}
