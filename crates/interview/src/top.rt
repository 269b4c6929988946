// The top call: all that the program does, over the words of its command line and what it sees of the outside.
ghost use Rattle.std.specs.Prelude.{◌≡◌, ◌<◌, ℕ, true, List};
ghost use Rattle.answers.specs.Meaning.{answered};
ghost use Rattle.text_checks.specs.Tables.{named_checks};
ghost use Rattle.dictionary.specs.AcceptedParts.{accepted};
ghost use Rattle.dict_meaning.specs.Fits.{AnswersFit};
ghost use Rattle.graph_session.specs.Refusals.{SameChecks};
ghost use Rattle.graph_session.specs.Rules.{rules};
ghost use Rattle.fact_watch.specs.Tables.{named_relations};
ghost use Rattle.script_lines.specs.Joined.{joined};
ghost use Rattle.script_runs.specs.ScriptEnds.{script_did};
ghost use Rattle.interview_ends.specs.StepEnds.{Gives, RunEnds, StartEnds};
ghost use Rattle.interview.specs.Calls.{Calls};
ghost use Rattle.interview_ends.specs.CallsFor.{CallsForSaved, ExchangeFrom, beside};
ghost use Rattle.script_runs.specs.Exchange.{MayBegin};
ghost use Rattle.interview.specs.Ends.{Interviewed};
ghost use Rattle.interview_ends.specs.Given.{did_by};
ghost use Rattle.interview.specs.Words.{given_by};
ghost use Rattle.script_runs.specs.Meanings.{IsBeginning, Meaning, meaning_of};
ghost use Rattle.interview_ends.specs.Origins.{beginning_of};
ghost use Rattle.script_runs.specs.declared.status.Status.TheVariants.{FetchFault as FailedFetch};

use crate::save_run::run_and_save;
use crate::words::{Form, form_of};
use dictionary::Dictionary;
use fact_values::NoMemory;
use fact_watch::WatchTable;
use fg_io::{Failed, Shelf, Sink, Source};
use interview_ends::{
    Beginning, Dropped, Fetched, Ready, Resumed, check, end_by, end_by_fault, end_by_refused_line,
    obtain, put_front, resume, run_load,
};
use plain_table::PlainTable;
use recalc::Recalc;
use script_runs::{LineHandler, Mode, Status, WatchedSession, run};
use session_lines::Tables;
use shared_desk::Desk;
use std::alloc::Global;
use std::marker::Brand;
use std::sync::ledger::{Blank, Ledger};
use steps::Steps;
use text_checks::CheckTable;

// Writes what stands before the replies, and runs the script. Its steps are counted for nobody else.
fn run_behind<T: LineHandler, L: Ledger, S: Source<K>, K: Sink>(
    alloc: Global,
    handler: &mut T,
    dropped: &Dropped,
    tables: &Tables<'_>,
    script: &mut S,
    out: &mut K,
    blank: Blank,
) -> Status
    requires name { blank.name ≡ L.name }
    requires parts { blank.parts ≡ L.parts }
    requires some { 0 < blank.parts }
    requires same_checks { SameChecks (T.goes_by handler.old) (named_checks tables.now.checks.now) }
    requires unchanged { T.changes handler.old ≡ 0 }
    requires meant { (m : Meaning) × IsBeginning m × T.means handler.old (named_relations tables.now.relations.now) m }
    requires given { (front : List (List ℕ)) × Gives dropped.now front }
    ensures ends { (front : List (List ℕ)) → Gives dropped.now front → (m : Meaning) → IsBeginning m → T.means handler.old
        (named_relations tables.now.relations.now) m → StartEnds m (joined front) (script_did (S.input script.old)
        (S.input script.new) (K.output out.old) (K.output out.new)) result }
    ensures calls { (front : List (List ℕ)) → Gives dropped.now front → (m : Meaning) → IsBeginning m → T.means handler.old
        (named_relations tables.now.relations.now) m → MayBegin S.pulled K.output m front out.old out.new script.old
        script.new result }
{
    let mut steps = Steps::<L>::new(blank);
    match put_front(dropped, out) {
        Ok(()) => run(alloc, handler, tables, script, out, &mut steps),
        Err(Failed) => Status::WriteFault,
    }
}

// Runs the script by whoever answers its lines, who begins before anything is written.
fn run_as<T: LineHandler, S: Source<K>, K: Sink>(
    alloc: Global,
    dictionary: Dictionary,
    ready: Ready,
    tables: &Tables<'_>,
    script: &mut S,
    out: &mut K,
) -> Status
    requires can_begin { T.can_begin ≡ true }
    requires same_checks { SameChecks (rules dictionary) (named_checks tables.now.checks.now) }
    requires fit { AnswersFit (accepted dictionary).tree (answered ready.answers) }
    requires given { (front : List (List ℕ)) × Gives ready.dropped front }
    ensures ends { (front : List (List ℕ)) → Gives ready.dropped front
        → StartEnds (T.meaning (rules dictionary) (named_relations tables.now.relations.now) (answered ready.answers))
        (joined front) (script_did (S.input script.old) (S.input script.new) (K.output out.old) (K.output out.new)) result }
    ensures calls { (front : List (List ℕ)) → Gives ready.dropped front
        → MayBegin S.pulled K.output (T.meaning (rules dictionary) (named_relations tables.now.relations.now)
        (answered ready.answers)) front out.old out.new script.old script.new result }
{
    match T::begin(alloc, dictionary, ready.answers) {
        Ok(mut handler) => {
            let status = run_behind::<T, Brand, S, K>(
                alloc,
                &mut handler,
                &ready.dropped,
                tables,
                script,
                out,
                Blank::new(1),
            );
            drop(handler);
            status
        }
        Err(NoMemory) => Status::NoMemory,
    }
}

// Runs the script over the dictionary, in the mode that the words ask for.
fn run_by<S: Source<K>, K: Sink>(
    alloc: Global,
    mode: Mode,
    dictionary: Dictionary,
    ready: Ready,
    tables: &Tables<'_>,
    script: &mut S,
    out: &mut K,
) -> Status
    requires same_checks { SameChecks (rules dictionary) (named_checks tables.now.checks.now) }
    requires fit { AnswersFit (accepted dictionary).tree (answered ready.answers) }
    requires given { (front : List (List ℕ)) × Gives ready.dropped front }
    ensures ends { (front : List (List ℕ)) → Gives ready.dropped front
        → StartEnds (meaning_of (rules dictionary) mode (named_relations tables.now.relations.now)
        (answered ready.answers)) (joined front) (script_did (S.input script.old) (S.input script.new) (K.output out.old)
        (K.output out.new)) result }
    ensures calls { (front : List (List ℕ)) → Gives ready.dropped front
        → MayBegin S.pulled K.output (meaning_of (rules dictionary) mode (named_relations tables.now.relations.now)
        (answered ready.answers)) front out.old out.new script.old script.new result }
{
    match mode {
        Mode::Incremental => {
            run_as::<WatchedSession<Recalc>, S, K>(alloc, dictionary, ready, tables, script, out)
        }
        Mode::Plain => {
            run_as::<WatchedSession<PlainTable>, S, K>(
                alloc, dictionary, ready, tables, script, out,
            )
        }
        Mode::Desk => {
            run_as::<Desk<Recalc>, S, K>(alloc, dictionary, ready, tables, script, out)
        }
    }
}

// Runs the script over an accepted dictionary, from the answers that the words ask for.
fn run_from<H: Shelf<S, K>, S: Source<K>, K: Sink>(
    alloc: Global,
    mode: Mode,
    beginning: Beginning<'_>,
    dictionary: Dictionary,
    tables: &Tables<'_>,
    shelf: &mut H,
    script: &mut S,
    out: &mut K,
) -> Status
    requires { SameChecks (rules dictionary) (named_checks tables.now.checks.now) }
    ensures ends { RunEnds (H.files shelf.old).contents (beginning_of beginning.entry) (rules dictionary) mode
        (named_relations tables.now.relations.now) (did_by (H.files shelf.old) (H.files shelf.new) (S.input script.old)
        (S.input script.new) (K.output out.old) (K.output out.new)) result }
    ensures fetches { CallsForSaved (beside H.fetched script.old out.old) (beginning_of beginning.entry) (result ≡ FailedFetch)
        shelf.old shelf.new }
    ensures pulls { ExchangeFrom S.pulled K.output (H.files shelf.old).contents (beginning_of beginning.entry)
        (rules dictionary) mode (named_relations tables.now.relations.now) result script.old script.new out.old out.new }
{
    match resume(
        alloc,
        beginning,
        &dictionary,
        tables.checks,
        shelf,
        script,
        out,
    ) {
        Ok(Resumed::Begins(ready)) => {
            run_by(alloc, mode, dictionary, ready, tables, script, out)
        }
        Ok(Resumed::Refused(line)) => {
            drop(dictionary);
            end_by_refused_line(out, line)
        }
        Err(status) => {
            drop(dictionary);
            status
        }
    }
}

/// Does all that the program does, over the words of its command line, without the program's name. The checks are those
/// that a dictionary may name, and the relations those by which a slot may be watched.
///
/// A dictionary has at most 8,388,608 bytes, a saved text and a script at most 67,108,864 each. The shelf is asked at most for a
/// dictionary's name, once, and then, over an accepted dictionary, for that of a saved text, once. For a dictionary of the program's
/// own without a saved text, for `gen N`, and for words without a form it is asked for nothing, and stays as it was.
pub fn interview<H: Shelf<S, K>, S: Source<K>, K: Sink>(
    alloc: Global,
    words: &[String],
    checks: &CheckTable,
    relations: &WatchTable,
    shelf: &mut H,
    script: &mut S,
    out: &mut K,
) -> Status
    ensures ends { Interviewed (given_by words.now (named_checks checks.now) (named_relations relations.now)
        (H.files shelf.old) (S.input script.old)) (did_by (H.files shelf.old) (H.files shelf.new) (S.input script.old)
        (S.input script.new) (K.output out.old) (K.output out.new)) result }
    ensures calls { Calls H.fetched S.pulled K.output (given_by words.now (named_checks checks.now)
        (named_relations relations.now) (H.files shelf.old) (S.input script.old)) result shelf.old shelf.new script.old
        script.new out.old out.new }
{
    let tables = Tables { checks, relations };
    match form_of(words) {
        Form::Run(mode, origin, beginning) => match obtain(
            alloc, origin, checks, shelf, script, out,
        ) {
            Ok(Fetched::Accepted(dictionary)) => run_from(
                alloc, mode, beginning, dictionary, &tables, shelf, script, out,
            ),
            Ok(Fetched::Refused(fault)) => end_by_fault(out, fault),
            Err(status) => status,
        },
        Form::Check(name) => check(alloc, name, checks, shelf, script, out),
        Form::Gen(n) => run_load(alloc, n, relations, out),
        Form::Save(origin) => run_and_save(alloc, origin, checks, relations, shelf, script, out),
        Form::Unknown => end_by(out, b"usage: interview COMMAND ARGUMENTS\n", Status::Usage),
    }
}
