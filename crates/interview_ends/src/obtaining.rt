// Fetches and accepts the dictionary of a run, or brings one of the program's own.
ghost use Rattle.std.specs.Prelude.{◌≡◌, IfErr, IfOk, IsErrOf, OnOk};
ghost use Rattle.text_checks.specs.Tables.{named_checks};
ghost use Rattle.interview_ends.specs.CallsFor.{CallsForDictionary, beside};
ghost use Rattle.interview_ends.specs.StepEnds.{NotObtained, ObtainedAs, ObtainedBy};
ghost use Rattle.interview_ends.specs.Origins.{origin_of};
ghost use Rattle.script_runs.specs.declared.status.Status.TheVariants.{FetchFault as FailedFetch};

use crate::fetching::{Fetched, fetch};
use crate::origin::Origin;
use built_in::bring;
use fact_values::NoMemory;
use fg_io::Shelf;
use script_runs::Status;
use std::alloc::Global;
use text_checks::CheckTable;

/// The dictionary of a run, or its first fault: that of a file is fetched, and one that the program brings with it isn't.
pub fn obtain<H: Shelf<S, K>, S, K>(
    alloc: Global,
    origin: Origin<'_>,
    checks: &CheckTable,
    shelf: &mut H,
    script: &S,
    out: &K,
) -> Result<Fetched, Status>
    ensures obtained { IfOk result (ObtainedAs (H.files shelf.old).contents (origin_of origin.entry)
        (named_checks checks.now)) }
    ensures not_obtained { IfErr result (NotObtained (origin_of origin.entry) (H.files shelf.old) (H.files shelf.new)) }
    ensures kept { (H.files shelf.new).contents ≡ (H.files shelf.old).contents }
    ensures uncounted { OnOk result ((H.files shelf.new).faults ≡ (H.files shelf.old).faults) }
    ensures calls { CallsForDictionary (beside H.fetched script.now out.now) (origin_of origin.entry) (IsErrOf result FailedFetch) shelf.old shelf.new }
    ensures by_calls { ObtainedBy (beside H.fetched script.now out.now) (named_checks checks.now) (origin_of origin.entry) shelf.old shelf.new result }
{
    match origin {
        Origin::File(name) => fetch(alloc, name, checks, shelf, script, out),
        Origin::BuiltIn(built_in) => match bring(alloc, built_in) {
            Ok(dictionary) => Ok(Fetched::Accepted(dictionary)),
            Err(NoMemory) => Err(Status::NoMemory),
        },
    }
}
