// Runs a script without its replies, and saves the answers that stand at its end.
ghost use Rattle.std.specs.Prelude.{◌≡◌, ◌<◌};
ghost use Rattle.session_lines.specs.Answering.{state_by};
ghost use Rattle.text_checks.specs.Tables.{named_checks};
ghost use Rattle.fact_watch.specs.Tables.{named_relations};
ghost use Rattle.dictionary.specs.AcceptedParts.{accepted};
ghost use Rattle.graph_session.specs.Refusals.{SameChecks};
ghost use Rattle.graph_session.specs.Rules.{rules};
ghost use Rattle.saved_text.specs.SavedText.{saved_lines};
ghost use Rattle.interview_ends.specs.CallsFor.{MaySave, SilentExchange};
ghost use Rattle.interview_ends.specs.LastLines.{PutLinesAtEnd};
ghost use Rattle.script_runs.specs.Meanings.{of_session};
ghost use Rattle.interview_ends.specs.Save.{ScriptSaves, save_meaning};
ghost use Rattle.session_lines.specs.Stepping.{open_at};
ghost use Rattle.script_runs.specs.ScriptEnds.{script_did};
ghost use Rattle.script_runs.specs.declared.status.Status.TheVariants.{Done};

use dictionary::{Dictionary, FactEngine};
use fact_values::NoMemory;
use fg_io::{Failed, Sink, Source};
use graph_session::Session;
use recalc::Recalc;
use save_file::save;
use script_runs::{Silenced, Status, WatchedSession, run};
use session_lines::Tables;
use std::alloc::Global;
use std::sync::ledger::{Blank, Ledger};
use steps::Steps;

// Writes the answers that stand, each line as one piece.
fn save_answers<E: FactEngine, K: Sink>(session: &Session<E>, out: &mut K) -> Status
    ensures { PutLinesAtEnd (K.output out.old) (K.output out.new)
        (saved_lines (accepted session.now.dict).tree session.now.timeline.now) Done result }
{
    match save(session.dict(), session.answers(), out) {
        Ok(()) => Status::Done,
        Err(Failed) => Status::WriteFault,
    }
}

// Runs the script over a session at its start without its replies, and writes the answers that stand at its end.
fn save_session<E: FactEngine, L: Ledger, S: Source<K>, K: Sink>(
    alloc: Global,
    silenced: &mut Silenced<WatchedSession<E>>,
    tables: &Tables<'_>,
    script: &mut S,
    out: &mut K,
    steps: &mut Steps<L>,
) -> Status
    requires same_checks { SameChecks (rules silenced.old.handler.session.dict) (named_checks tables.now.checks.now) }
    requires unchanged { silenced.old.handler.session.changes ≡ 0 }
    ensures saves { ScriptSaves (rules silenced.old.handler.session.dict) (of_session (rules silenced.old.handler.session.dict)
        (open_at (state_by silenced.old.handler.session tables.now.relations.now silenced.old.handler.watches)))
        (script_did (S.input script.old) (S.input script.new) (K.output out.old) (K.output out.new)) result }
    ensures calls { SilentExchange S.pulled K.output (rules silenced.old.handler.session.dict)
        (of_session (rules silenced.old.handler.session.dict)
        (open_at (state_by silenced.old.handler.session tables.now.relations.now silenced.old.handler.watches)))
        out.old out.new script.old script.new result }
{
    match run(alloc, silenced, tables, script, out, steps) {
        Status::Done => save_answers(&silenced.handler.session, out),
        Status::DictionaryRefused => Status::DictionaryRefused,
        Status::Usage => Status::Usage,
        Status::FetchFault => Status::FetchFault,
        Status::ReadFault => Status::ReadFault,
        Status::WriteFault => Status::WriteFault,
        Status::ScriptTooLong => Status::ScriptTooLong,
        Status::NoMemory => Status::NoMemory,
        Status::SavedRefused => Status::SavedRefused,
    }
}

/// Runs the script over the dictionary, from no answers and without its replies, and writes the answers that stand at its end. Its
/// steps are counted for nobody else.
pub fn save_over<L: Ledger, S: Source<K>, K: Sink>(
    alloc: Global,
    dictionary: Dictionary,
    tables: &Tables<'_>,
    script: &mut S,
    out: &mut K,
    blank: Blank,
) -> Status
    requires name { blank.name ≡ L.name }
    requires parts { blank.parts ≡ L.parts }
    requires some { 0 < blank.parts }
    requires same_checks { SameChecks (rules dictionary) (named_checks tables.now.checks.now) }
    ensures saves { ScriptSaves (rules dictionary)
        (save_meaning (rules dictionary) (named_relations tables.now.relations.now))
        (script_did (S.input script.old) (S.input script.new) (K.output out.old) (K.output out.new)) result }
    ensures calls { MaySave S.pulled K.output (rules dictionary)
        (save_meaning (rules dictionary) (named_relations tables.now.relations.now)) out.old out.new script.old
        script.new result }
{
    let mut steps = Steps::<L>::new(blank);
    match WatchedSession::<Recalc>::new(alloc, dictionary) {
        Ok(handler) => {
            let mut silenced = Silenced { handler };
            let status = save_session(alloc, &mut silenced, tables, script, out, &mut steps);
            drop(silenced);
            status
        }
        Err(NoMemory) => Status::NoMemory,
    }
}
