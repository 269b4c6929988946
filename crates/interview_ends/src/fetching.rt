// Fetches a dictionary.
ghost use Rattle.std.specs.Prelude.{◌≡◌, IfErr, IfOk, IsErrOf, OnOk};
ghost use Rattle.text_checks.specs.Tables.{named_checks};
ghost use Rattle.dictionary.specs.AcceptedParts.{accepted, names_of};
ghost use Rattle.dictionary.specs.Faults.{AreAccepted, IsFault, Refuses};
ghost use Rattle.interview_ends.specs.CallsFor.{CallsForDictionary, beside};
ghost use Rattle.interview_ends.specs.StepEnds.{FetchedAs, NotFetched, ObtainedBy};
ghost use Rattle.interview_ends.specs.Origins.{file};
ghost use Rattle.interview_ends.specs.FaultLines.{is_memory as wants_memory};
ghost use Rattle.script_runs.specs.declared.status.Status.TheVariants.{FetchFault as FailedFetch};

use dictionary::{DictFault, Dictionary, accept};
use fg_io::{FetchFault, Shelf};
use script_runs::Status;
use std::alloc::Global;
use text_checks::CheckTable;

/// The most bytes of a dictionary.
const LIMIT: u64 = 8_388_608;

/// What the bytes of a dictionary came to.
#[derive(Drop)]
pub enum Fetched {
    /// A dictionary without a fault.
    Accepted(Dictionary),
    /// The first fault.
    Refused(DictFault),
}

// The dictionary that the bytes spell, with the checks of the table by name and code.
fn accept_named(alloc: Global, bytes: &[u8], checks: &CheckTable) -> Result<Dictionary, DictFault>
    ensures is_accepted { IfOk result (λ d. AreAccepted bytes.now (names_of (named_checks checks.now)) (accepted d)) }
    ensures checks { IfOk result (λ d. d.checks ≡ named_checks checks.now) }
    ensures refused { IfErr result (Refuses (IsFault bytes.now (names_of (named_checks checks.now)))) }
{
    accept(alloc, bytes, checks)
}

fn is_memory(fault: DictFault) -> bool
    ensures { result ≡ wants_memory fault }
{
    match fault {
        DictFault::NoMemory => true,
        DictFault::TooLong
        | DictFault::NotJson
        | DictFault::Shape(_)
        | DictFault::TooMany(_)
        | DictFault::TooDeep(_)
        | DictFault::BadPath(_)
        | DictFault::DuplicatePath(_)
        | DictFault::NoCollection(_)
        | DictFault::UnknownPath(_)
        | DictFault::WrongPlace(_)
        | DictFault::UnknownCheck(_)
        | DictFault::IllTyped(_, _)
        | DictFault::BadLimit(_)
        | DictFault::Cycle(_) => false,
    }
}

/// Fetches the dictionary of this name.
pub fn fetch<H: Shelf<S, K>, S, K>(
    alloc: Global,
    name: &str,
    checks: &CheckTable,
    shelf: &mut H,
    script: &S,
    out: &K,
) -> Result<Fetched, Status>
    ensures fetched { IfOk result (FetchedAs ((H.files shelf.old).contents name.now) (named_checks checks.now)) }
    ensures not_fetched { IfErr result (NotFetched name.now (H.files shelf.old) (H.files shelf.new)) }
    ensures kept { (H.files shelf.new).contents ≡ (H.files shelf.old).contents }
    ensures uncounted { OnOk result ((H.files shelf.new).faults ≡ (H.files shelf.old).faults) }
    ensures calls { CallsForDictionary (beside H.fetched script.now out.now) (file name.now) (IsErrOf result FailedFetch) shelf.old shelf.new }
    ensures by_calls { ObtainedBy (beside H.fetched script.now out.now) (named_checks checks.now) (file name.now) shelf.old shelf.new result }
{
    let bytes = match shelf.fetch(script, out, name, LIMIT) {
        Ok(bytes) => bytes,
        Err(FetchFault::TooLong) => return Ok(Fetched::Refused(DictFault::TooLong)),
        Err(FetchFault::Failed) => return Err(Status::FetchFault),
        Err(FetchFault::NoMemory) => return Err(Status::NoMemory),
    };
    match accept_named(alloc, bytes.as_slice(), checks) {
        Ok(dictionary) => Ok(Fetched::Accepted(dictionary)),
        Err(fault) => {
            if is_memory(fault) {
                return Err(Status::NoMemory);
            }
            Ok(Fetched::Refused(fault))
        }
    }
}
