// Writes whether a dictionary is accepted, or its first fault.
ghost use Rattle.std.specs.Prelude.{◌≡◌};
ghost use Rattle.text_checks.specs.Tables.{named_checks};
ghost use Rattle.dictionary.specs.AcceptedParts.{accepted};
ghost use Rattle.interview_ends.specs.CallsFor.{CallsForDictionary, beside};
ghost use Rattle.interview_ends.specs.DefinedEnds.{defined_accepted};
ghost use Rattle.interview_ends.specs.LastLines.{PutAtEnd, PutsOneLine};
ghost use Rattle.interview_ends.specs.StepEnds.{CheckEnds, EndedBy, check_did};
ghost use Rattle.interview_ends.specs.Origins.{file};
ghost use Rattle.script_runs.specs.declared.status.Status.TheVariants.{Done, FetchFault as FailedFetch};

use crate::ending::{end_by, end_by_fault};
use crate::fault_line::print_accepted;
use crate::fetching::{Fetched, fetch};
use dictionary::Dictionary;
use fg_io::{Shelf, Sink};
use script_runs::Status;
use std::alloc::Global;
use text_checks::CheckTable;
use value_text::Line;

// Writes that a dictionary is accepted, which ends the interview.
fn end_accepted<K: Sink>(out: &mut K, dictionary: &Dictionary) -> Status
    ensures text { EndedBy (K.output out.old) (K.output out.new) (defined_accepted (accepted dictionary.now)).text Done
        result }
    ensures puts { PutAtEnd (K.output out.old) (K.output out.new) (defined_accepted (accepted dictionary.now)).text Done
        result }
{
    let mut line = Line::new();
    print_accepted(dictionary.fact_count(), dictionary.node_count(), &mut line);
    end_by(out, line.bytes(), Status::Done)
}

/// Writes whether the dictionary of this name is accepted, or else its first fault.
pub fn check<H: Shelf<S, K>, S, K: Sink>(
    alloc: Global,
    name: &str,
    checks: &CheckTable,
    shelf: &mut H,
    script: &S,
    out: &mut K,
) -> Status
    ensures ends { CheckEnds ((H.files shelf.old).contents name.now) (named_checks checks.now) name.now
        (check_did (H.files shelf.old) (H.files shelf.new) (K.output out.old) (K.output out.new)) result }
    ensures calls { CallsForDictionary (beside H.fetched script.now out.old) (file name.now) (result ≡ FailedFetch) shelf.old shelf.new }
    ensures puts { PutsOneLine (K.output out.old) (K.output out.new) result }
{
    match fetch(alloc, name, checks, shelf, script, out) {
        Ok(Fetched::Accepted(dictionary)) => {
            let status = end_accepted(out, &dictionary);
            drop(dictionary);
            status
        }
        Ok(Fetched::Refused(fault)) => end_by_fault(out, fault),
        Err(status) => status,
    }
}
