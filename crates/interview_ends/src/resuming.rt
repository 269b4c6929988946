// Loads or carries the answers with which a run begins.
ghost use Rattle.std.specs.Prelude.{◌≡◌, ◌≤◌, ◌<◌, ◌^◌, ℕ, List, length, IfErr, IfOk, IsErrOf};
ghost use Rattle.saved_text.specs.Writing.{WroteAs};
ghost use Rattle.text_checks.specs.Tables.{named_checks};
ghost use Rattle.graph_session.specs.Refusals.{SameChecks};
ghost use Rattle.graph_session.specs.Rules.{rules};
ghost use Rattle.interview_ends.specs.Beginnings.{saved_limit, to_carry, to_load};
ghost use Rattle.interview_ends.specs.CallsFor.{CallsForSaved, CallsOnce, beside};
ghost use Rattle.interview_ends.specs.StepEnds.{FetchedText, Gives, NotFetched, NotResumed, RefusedFor, ResumedAs, ResumesAs};
ghost use Rattle.interview_ends.specs.Origins.{beginning_of, by_carry, by_load};
ghost use Rattle.script_runs.specs.declared.status.Status.TheVariants.{FetchFault as FailedFetch, NoMemory as WantsMemory};

use crate::origin::Beginning;
use answers::Answers;
use dictionary::Dictionary;
use fg_io::{Failed, FetchFault, Shelf, Sink};
use save_file::{Carried, LoadFault, carry, load, put_dropped};
use script_runs::Status;
use std::alloc::Global;
use text_checks::CheckTable;

/// The most bytes of a saved text.
const LIMIT: u64 = 67_108_864;

/// What is to be said of a saved text before the first reply.
#[derive(Drop)]
pub enum Dropped {
    /// Nothing.
    Nothing,
    /// Which lines of these bytes are dropped: those of these numbers.
    Lines(Vec<u8>, Vec<u32>),
}

/// What a script begins with.
#[derive(Drop)]
pub struct Ready {
    /// The answers.
    pub answers: Answers,
    /// What is written before the replies.
    pub dropped: Dropped,
}

/// What the answers at the start of a run came to.
#[derive(Drop)]
pub enum Resumed {
    /// The script may begin.
    Begins(Ready),
    /// The saved text is refused at the line of this number. The number is 0 where the text is too long.
    Refused(u32),
}

/// Writes what is to be said of a saved text, each line as one piece.
pub fn put_front<K: Sink>(dropped: &Dropped, out: &mut K) -> Result<(), Failed>
    requires { (front : List (List ℕ)) × Gives dropped.now front }
    ensures { (front : List (List ℕ)) → Gives dropped.now front → WroteAs (K.output out.old) (K.output out.new) front result }
{
    match dropped {
        Dropped::Nothing => Ok(()),
        Dropped::Lines(bytes, numbers) => put_dropped(bytes.as_slice(), numbers.as_slice(), out),
    }
}

// What a fault of a saved text comes to.
fn refused(fault: LoadFault) -> Result<Resumed, Status>
    ensures { RefusedFor fault result }
{
    match fault {
        LoadFault::BadSaved(line) => Ok(Resumed::Refused(line)),
        LoadFault::NoMemory => Err(Status::NoMemory),
    }
}

// The answers of a saved text of the dictionary's own.
fn load_ready(alloc: Global, dict: &Dictionary, bytes: &[u8]) -> Result<Resumed, Status>
    requires { length bytes.now ≤ saved_limit }
    ensures resumed { IfOk result (ResumesAs (rules dict.now) (to_load bytes.now)) }
    ensures memory { IfErr result (λ status. status ≡ WantsMemory) }
{
    match load(alloc, dict, bytes) {
        Ok(answers) => Ok(Resumed::Begins(Ready {
            answers,
            dropped: Dropped::Nothing,
        })),
        Err(fault) => refused(fault),
    }
}

// What may stand of a saved text over the dictionary.
fn carry_ready(
    alloc: Global,
    dict: &Dictionary,
    checks: &CheckTable,
    bytes: Vec<u8>,
) -> Result<Resumed, Status>
    requires same_checks { SameChecks (rules dict.now) (named_checks checks.now) }
    requires short { length bytes.items ≤ saved_limit }
    ensures resumed { IfOk result (ResumesAs (rules dict.now) (to_carry bytes.items)) }
    ensures memory { IfErr result (λ status. status ≡ WantsMemory) }
{
    match carry(alloc, dict, checks, bytes.as_slice()) {
        Ok(Carried { answers, dropped }) => Ok(Resumed::Begins(Ready {
            answers,
            dropped: Dropped::Lines(bytes, dropped),
        })),
        Err(fault) => refused(fault),
    }
}

// Fetches the saved text of this name; of one that is too long nothing is kept.
fn fetch_text<H: Shelf<S, K>, S, K>(
    name: &str,
    shelf: &mut H,
    script: &S,
    out: &K,
) -> Result<Option<Vec<u8>>, Status>
    ensures fetched { IfOk result (FetchedText ((H.files shelf.old).contents name.now)) }
    ensures not_fetched { IfErr result (NotFetched name.now (H.files shelf.old) (H.files shelf.new)) }
    ensures calls { CallsOnce (beside H.fetched script.now out.now) name.now saved_limit (IsErrOf result FailedFetch) shelf.old shelf.new }
{
    match shelf.fetch(script, out, name, LIMIT) {
        Ok(bytes) => Ok(Some(bytes)),
        Err(FetchFault::TooLong) => Ok(None),
        Err(FetchFault::Failed) => Err(Status::FetchFault),
        Err(FetchFault::NoMemory) => Err(Status::NoMemory),
    }
}

// The answers of the saved text of this name, or the line at which it is refused.
fn resume_loaded<H: Shelf<S, K>, S, K>(
    alloc: Global,
    name: &str,
    dict: &Dictionary,
    shelf: &mut H,
    script: &S,
    out: &K,
) -> Result<Resumed, Status>
    ensures resumed { IfOk result (ResumedAs (H.files shelf.old).contents (by_load name.now) (rules dict.now)) }
    ensures not_resumed { IfErr result (NotResumed (by_load name.now) (H.files shelf.old) (H.files shelf.new)) }
    ensures calls { CallsForSaved (beside H.fetched script.now out.now) (by_load name.now) (IsErrOf result FailedFetch) shelf.old shelf.new }
{
    match fetch_text(name, shelf, script, out) {
        Ok(Some(bytes)) => load_ready(alloc, dict, bytes.as_slice()),
        Ok(None) => Ok(Resumed::Refused(0)),
        Err(status) => Err(status),
    }
}

// What may stand of the saved text of this name, or the line at which it is refused.
fn resume_carried<H: Shelf<S, K>, S, K>(
    alloc: Global,
    name: &str,
    dict: &Dictionary,
    checks: &CheckTable,
    shelf: &mut H,
    script: &S,
    out: &K,
) -> Result<Resumed, Status>
    requires { SameChecks (rules dict.now) (named_checks checks.now) }
    ensures resumed { IfOk result (ResumedAs (H.files shelf.old).contents (by_carry name.now) (rules dict.now)) }
    ensures not_resumed { IfErr result (NotResumed (by_carry name.now) (H.files shelf.old) (H.files shelf.new)) }
    ensures calls { CallsForSaved (beside H.fetched script.now out.now) (by_carry name.now) (IsErrOf result FailedFetch) shelf.old shelf.new }
{
    match fetch_text(name, shelf, script, out) {
        Ok(Some(bytes)) => carry_ready(alloc, dict, checks, bytes),
        Ok(None) => Ok(Resumed::Refused(0)),
        Err(status) => Err(status),
    }
}

/// The answers with which a run over an accepted dictionary begins, or the line at which its saved text is refused. A saved text
/// is fetched.
pub fn resume<H: Shelf<S, K>, S, K>(
    alloc: Global,
    beginning: Beginning<'_>,
    dict: &Dictionary,
    checks: &CheckTable,
    shelf: &mut H,
    script: &S,
    out: &K,
) -> Result<Resumed, Status>
    requires { SameChecks (rules dict.now) (named_checks checks.now) }
    ensures resumed { IfOk result (ResumedAs (H.files shelf.old).contents (beginning_of beginning.entry)
        (rules dict.now)) }
    ensures not_resumed { IfErr result (NotResumed (beginning_of beginning.entry) (H.files shelf.old)
        (H.files shelf.new)) }
    ensures calls { CallsForSaved (beside H.fetched script.now out.now) (beginning_of beginning.entry) (IsErrOf result FailedFetch) shelf.old shelf.new }
{
    let _accepted = dict.source();
    match beginning {
        Beginning::Unanswered => Ok(Resumed::Begins(Ready {
            answers: Answers::new(alloc),
            dropped: Dropped::Nothing,
        })),
        Beginning::Load(name) => resume_loaded(alloc, name, dict, shelf, script, out),
        Beginning::Carry(name) => resume_carried(alloc, name, dict, checks, shelf, script, out),
    }
}
