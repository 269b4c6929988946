// Runs a script without its replies over the dictionary that the words name, and saves the answers that stand at its end.
ghost use Rattle.std.specs.Prelude.{◌<◌, ℕ, List};
ghost use Rattle.text_checks.specs.Tables.{named_checks};
ghost use Rattle.fact_watch.specs.Tables.{named_relations};
ghost use Rattle.interview_ends.specs.CallsFor.{CallsForSave};
ghost use Rattle.interview_ends.specs.Given.{did_by, given_with};
ghost use Rattle.interview.specs.SaveEnds.{SaveEnds};
ghost use Rattle.interview.specs.Words.{IsSave};
ghost use Rattle.interview_ends.specs.Origins.{origin_of};

use fact_watch::WatchTable;
use fg_io::{Shelf, Sink, Source};
use interview_ends::{Fetched, Origin, end_by_fault, obtain, save_over};
use script_runs::Status;
use session_lines::Tables;
use std::alloc::Global;
use std::marker::Brand;
use std::sync::ledger::Blank;
use text_checks::CheckTable;

/// Runs a script over a dictionary without its replies, and writes the answers that stand at its end.
pub fn run_and_save<H: Shelf<S, K>, S: Source<K>, K: Sink>(
    alloc: Global,
    origin: Origin<'_>,
    checks: &CheckTable,
    relations: &WatchTable,
    shelf: &mut H,
    script: &mut S,
    out: &mut K,
) -> Status
    ensures ends { (words : List (List ℕ)) → IsSave words (origin_of origin.entry) → SaveEnds (given_with words
        (named_checks checks.now) (named_relations relations.now) (H.files shelf.old) (S.input script.old))
        (did_by (H.files shelf.old) (H.files shelf.new) (S.input script.old) (S.input script.new) (K.output out.old)
        (K.output out.new)) result }
    ensures calls { (words : List (List ℕ)) → CallsForSave H.fetched S.pulled K.output (given_with words
        (named_checks checks.now) (named_relations relations.now) (H.files shelf.old) (S.input script.old))
        (origin_of origin.entry) result shelf.old shelf.new script.old script.new out.old out.new }
{
    match obtain(alloc, origin, checks, shelf, script, out) {
        Ok(Fetched::Accepted(dictionary)) => {
            let tables = Tables { checks, relations };
            save_over::<Brand, S, K>(alloc, dictionary, &tables, script, out, Blank::new(1))
        }
        Ok(Fetched::Refused(fault)) => end_by_fault(out, fault),
        Err(status) => status,
    }
}
