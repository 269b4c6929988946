// Begins sessions.
ghost use Rattle.std.specs.Prelude.{◌≡◌, ◌<◌, ◌≤◌, ℕ, List, [], IfErr, IfOk, false, length};
ghost use Rattle.answers.specs.Meaning.{answered};
ghost use Rattle.text_checks.specs.Tables.{named_checks};
ghost use Rattle.dictionary.specs.AcceptedParts.{accepted};
ghost use Rattle.dict_meaning.specs.Fits.{AnswersFit};
ghost use Rattle.dictionary.specs.declared.fault.DictFault.TheVariants.{NoMemory as WantsMemory};
ghost use Rattle.graph_session.specs.Rules.{rules, tree_of};
ghost use Rattle.saved_text.specs.CarriedText.{IsCarriedText};
ghost use Rattle.save_file.specs.Carrying.{IsCarry};
ghost use Rattle.save_file.specs.Dropped.{IsDroppedText};
ghost use Rattle.save_file.specs.Loading.{IsSavedText};
ghost use Rattle.fact_watch.specs.Watching.{nothing_watched};
ghost use Rattle.fact_graph_c.specs.Answering.{said};
ghost use Rattle.fact_graph_c.specs.Checks.{HasStandardChecks};
ghost use Rattle.fact_graph_c.specs.Openings.{Accepts, CarriesOver, IsBegun, IsFaultOfText, IsFurther, IsWantOfMemory, LoadsOver, NotOpened, RefusesOver, saved_limit};
ghost use Rattle.session_lines.specs.Tables.{standard_checks};
ghost use Rattle.fact_graph_c.specs.declared.fault.NotBegun.TheVariants.{Dictionary as OfDictionary};

use crate::engine::Engine;
use crate::fault::NotBegun;
use crate::text::Text;
use answers::Answers;
use dictionary::{DictFault, Dictionary, accept};
use fact_values::NoMemory;
use fact_watch::Watches;
use fg_io::Failed;
use graph_session::Session;
use recalc::Recalc;
use save_file::{Carried, LoadFault, carry, load, put_dropped};
use std::alloc::Global;
use text_checks::CheckTable;

/// The most bytes of a saved text.
pub const SAVED_LIMIT: usize = 67_108_864;

/// There was no memory.
pub fn wants_memory() -> NotBegun
    ensures { result ≡ OfDictionary WantsMemory }
{
    NotBegun::Dictionary(DictFault::NoMemory)
}

fn boxed(alloc: Global, engine: Engine) -> Result<Box<Engine>, NotBegun>
    ensures same { IfOk result (λ e. e.value ≡ engine) }
    ensures memory { IfErr result (λ why. why ≡ OfDictionary WantsMemory) }
{
    match Box::new(alloc, engine) {
        Ok(engine) => Ok(engine),
        Err(_) => Err(wants_memory()),
    }
}

// A session that nobody has used, and what it has said.
fn unused(alloc: Global, session: Session<Recalc>, text: Text) -> Engine
    requires { HasStandardChecks session.dict }
    ensures session { result.session ≡ session }
    ensures unwatched { result.watches ≡ nothing_watched }
    ensures open { result.over ≡ false }
    ensures text { said result ≡ text.bytes.items }
{
    Engine {
        session,
        watches: Watches::new(alloc),
        over: false,
        text,
    }
}

/// A session over the dictionary from these answers, which has said this.
pub fn begin(
    alloc: Global,
    dict: Dictionary,
    answers: Answers,
    text: Text,
) -> Result<Box<Engine>, NotBegun>
    requires same { HasStandardChecks dict }
    requires fit { AnswersFit (accepted dict).tree (answered answers) }
    ensures begun { IfOk result (λ e. IsBegun (rules dict) (answered answers) text.bytes.items e.value) }
    ensures memory { IfErr result (λ why. why ≡ OfDictionary WantsMemory) }
{
    match Session::<Recalc>::resume(alloc, dict, answers) {
        Ok(session) => boxed(alloc, unused(alloc, session, text)),
        Err(NoMemory) => Err(wants_memory()),
    }
}

/// The same, with nothing said.
pub fn begin_silent(
    alloc: Global,
    dict: Dictionary,
    answers: Answers,
) -> Result<Box<Engine>, NotBegun>
    requires same { HasStandardChecks dict }
    requires fit { AnswersFit (accepted dict).tree (answered answers) }
    ensures begun { IfOk result (λ e. IsBegun (rules dict) (answered answers) [] e.value) }
    ensures memory { IfErr result (λ why. why ≡ OfDictionary WantsMemory) }
{
    begin(alloc, dict, answers, Text::new(alloc))
}

/// A further session over the dictionary of one, which stays as it is.
pub fn begin_further(alloc: Global, of: &mut Engine) -> Result<Box<Engine>, NotBegun>
    ensures begun { IfOk result (λ e. IsFurther of.old e.value) }
    ensures memory { IfErr result IsWantOfMemory }
    ensures session { of.new.session ≡ of.old.session }
    ensures watches { of.new.watches ≡ of.old.watches }
    ensures open { of.new.over ≡ of.old.over }
    ensures text { said of.new ≡ said of.old }
{
    match of.session.further(alloc) {
        Ok(session) => boxed(alloc, unused(alloc, session, Text::new(alloc))),
        Err(NoMemory) => Err(wants_memory()),
    }
}

/// The dictionary that the bytes spell, or its first fault.
pub fn accepted_dictionary(
    alloc: Global,
    checks: &CheckTable,
    bytes: &[u8],
) -> Result<Dictionary, NotBegun>
    requires { named_checks checks.now
        ≡ standard_checks }
    ensures accepted { IfOk result (λ d. Accepts bytes.now (rules d)) }
    ensures refused { IfErr result (NotOpened bytes.now) }
{
    match accept(alloc, bytes, checks) {
        Ok(dict) => Ok(dict),
        Err(fault) => Err(NotBegun::Dictionary(fault)),
    }
}

/// What a fault of a saved text comes to.
pub fn not_resumed(fault: LoadFault) -> NotBegun
    ensures { IsFaultOfText fault result }
{
    match fault {
        LoadFault::BadSaved(line) => NotBegun::Saved(line),
        LoadFault::NoMemory => wants_memory(),
    }
}

/// A session over the dictionary from the answers of its own saved text.
pub fn begin_loaded(alloc: Global, dict: Dictionary, saved: &[u8]) -> Result<Box<Engine>, NotBegun>
    requires { dict.checks ≡ standard_checks }
    ensures loaded { IfOk result (λ e. LoadsOver (rules dict) saved.now e.value) }
    ensures refused { IfErr result (RefusesOver (IsSavedText (tree_of (rules dict))) saved.now) }
{
    if saved.len() > SAVED_LIMIT {
        return Err(NotBegun::Saved(0));
    }
    match load(alloc, &dict, saved) {
        Ok(answers) => begin_silent(alloc, dict, answers),
        Err(fault) => Err(not_resumed(fault)),
    }
}

// Which lines of a carried text are dropped.
fn dropped_text(alloc: Global, saved: &[u8], dropped: &[u32]) -> Result<Text, NoMemory>
    requires { length saved.now ≤ saved_limit }
    ensures { (text : List ℕ) → IsDroppedText saved.now dropped.now text
        → IfOk result (λ t. t.bytes.items ≡ text) }
{
    let mut text = Text::new(alloc);
    match put_dropped(saved, dropped, &mut text) {
        Ok(()) => Ok(text),
        Err(Failed) => Err(NoMemory),
    }
}

// A session over the dictionary from what was carried, which says which lines of the text are dropped.
fn begin_from(
    alloc: Global,
    dict: Dictionary,
    saved: &[u8],
    carried: Carried,
) -> Result<Box<Engine>, NotBegun>
    requires same { dict.checks ≡ standard_checks }
    requires short { length saved.now ≤ saved_limit }
    requires is_carry { IsCarry (rules dict) saved.now (answered carried.answers) carried.dropped.items }
    ensures carried { IfOk result (λ e. CarriesOver (rules dict) saved.now e.value) }
    ensures memory { IfErr result (λ why. why ≡ OfDictionary WantsMemory) }
{
    match dropped_text(alloc, saved, carried.dropped.as_slice()) {
        Ok(text) => begin(alloc, dict, carried.answers, text),
        Err(NoMemory) => Err(wants_memory()),
    }
}

/// A session over the dictionary from what may stand of a saved text. It says which lines are dropped.
pub fn begin_carried(
    alloc: Global,
    dict: Dictionary,
    checks: &CheckTable,
    saved: &[u8],
) -> Result<Box<Engine>, NotBegun>
    requires same { dict.checks ≡ standard_checks }
    requires checks { named_checks checks.now
        ≡ standard_checks }
    ensures carried { IfOk result (λ e. CarriesOver (rules dict) saved.now e.value) }
    ensures refused { IfErr result (RefusesOver IsCarriedText saved.now) }
{
    if saved.len() > SAVED_LIMIT {
        return Err(NotBegun::Saved(0));
    }
    match carry(alloc, &dict, checks, saved) {
        Ok(carried) => begin_from(alloc, dict, saved, carried),
        Err(fault) => Err(not_resumed(fault)),
    }
}
