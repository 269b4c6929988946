// Begins desks.
ghost use Rattle.std.specs.Prelude.{◌≡◌, [], IfErr, IfOk, false};
ghost use Rattle.answers.specs.Meaning.{answered};
ghost use Rattle.dictionary.specs.AcceptedParts.{accepted};
ghost use Rattle.dict_meaning.specs.Fits.{AnswersFit};
ghost use Rattle.dictionary.specs.declared.fault.DictFault.TheVariants.{NoMemory as WantsMemory};
ghost use Rattle.graph_session.specs.Rules.{rules, tree_of};
ghost use Rattle.save_file.specs.Loading.{IsSavedText};
ghost use Rattle.session_lines.specs.Tables.{standard_checks};
ghost use Rattle.fact_graph_c.specs.Checks.{HasStandardChecks};
ghost use Rattle.fact_graph_c.specs.DeskAnswers.{desk_said};
ghost use Rattle.fact_graph_c.specs.DeskOpenings.{IsDeskBegun, LoadsDesk, LoadsDeskOver, OpensDesk, OpensDeskBuiltIn};
ghost use Rattle.fact_graph_c.specs.Openings.{Accepts, NotBrought, NotLoaded, NotOpened, RefusesOver};
ghost use Rattle.fact_graph_c.specs.declared.fault.NotBegun.TheVariants.{Dictionary as OfDictionary};

use crate::bringing::brought;
use crate::desk_engine::DeskEngine;
use crate::fault::NotBegun;
use crate::opening::{SAVED_LIMIT, accepted_dictionary, not_resumed, wants_memory};
use crate::text::Text;
use answers::Answers;
use dictionary::Dictionary;
use fact_values::NoMemory;
use recalc::Recalc;
use save_file::load;
use session_lines::standard_checks;
use shared_desk::Desk;
use std::alloc::{AllocError, Global};
use text_checks::CheckTable;

fn boxed(alloc: Global, engine: DeskEngine) -> Result<Box<DeskEngine>, NotBegun>
    ensures same { IfOk result (λ e. e.value ≡ engine) }
    ensures memory { IfErr result (λ why. why ≡ OfDictionary WantsMemory) }
{
    match Box::new(alloc, engine) {
        Ok(engine) => Ok(engine),
        Err(_) => Err(wants_memory()),
    }
}

// A desk at which nobody has done anything, and which has said nothing.
fn unused(alloc: Global, desk: Desk<Recalc>) -> DeskEngine
    requires { HasStandardChecks desk.session.dict }
    ensures desk { result.desk ≡ desk }
    ensures open { result.over ≡ false }
    ensures text { desk_said result ≡ [] }
{
    DeskEngine {
        desk,
        over: false,
        text: Text::new(alloc),
    }
}

// A desk over the dictionary from these answers.
fn begin(alloc: Global, dict: Dictionary, answers: Answers) -> Result<Box<DeskEngine>, NotBegun>
    requires same { HasStandardChecks dict }
    requires fit { AnswersFit (accepted dict).tree (answered answers) }
    ensures begun { IfOk result (λ e. IsDeskBegun (rules dict) (answered answers) e.value) }
    ensures memory { IfErr result (λ why. why ≡ OfDictionary WantsMemory) }
{
    match Desk::<Recalc>::resume(alloc, dict, answers) {
        Ok(desk) => boxed(alloc, unused(alloc, desk)),
        Err(NoMemory) => Err(wants_memory()),
    }
}

// A desk over the dictionary from the answers of its own saved text.
fn begin_loaded(alloc: Global, dict: Dictionary, saved: &[u8]) -> Result<Box<DeskEngine>, NotBegun>
    requires { dict.checks ≡ standard_checks }
    ensures loaded { IfOk result (λ e. LoadsDeskOver (rules dict) saved.now e.value) }
    ensures refused { IfErr result (RefusesOver (IsSavedText (tree_of (rules dict))) saved.now) }
{
    if saved.len() > SAVED_LIMIT {
        return Err(NotBegun::Saved(0));
    }
    match load(alloc, &dict, saved) {
        Ok(answers) => begin(alloc, dict, answers),
        Err(fault) => Err(not_resumed(fault)),
    }
}

fn try_accept(alloc: Global, bytes: &[u8]) -> Result<Result<Dictionary, NotBegun>, AllocError>
    ensures accepted { IfOk result (λ r. IfOk r (λ d. Accepts bytes.now (rules d))) }
    ensures refused { IfOk result (λ r. IfErr r (NotOpened bytes.now)) }
{
    let mut checks = CheckTable::new(alloc);
    standard_checks!(alloc, checks);
    Ok(accepted_dictionary(alloc, &checks, bytes))
}

// The dictionary that the bytes spell, with the standard checks, or its first fault.
fn standard_dictionary(alloc: Global, bytes: &[u8]) -> Result<Dictionary, NotBegun>
    ensures accepted { IfOk result (λ d. Accepts bytes.now (rules d)) }
    ensures refused { IfErr result (NotOpened bytes.now) }
{
    match try_accept(alloc, bytes) {
        Ok(accepted) => accepted,
        Err(_) => Err(wants_memory()),
    }
}

/// A desk over the dictionary that the bytes spell, with no answers, or why there is none.
pub fn open_desk(alloc: Global, bytes: &[u8]) -> Result<Box<DeskEngine>, NotBegun>
    ensures opened { IfOk result (λ e. OpensDesk bytes.now e.value) }
    ensures refused { IfErr result (NotOpened bytes.now) }
{
    match standard_dictionary(alloc, bytes) {
        Ok(dict) => begin(alloc, dict, Answers::new(alloc)),
        Err(why) => Err(why),
    }
}

/// A desk over the dictionary of these words, with no answers, or why there is none.
pub fn open_desk_built_in(alloc: Global, words: &[u8]) -> Result<Box<DeskEngine>, NotBegun>
    ensures opened { IfOk result (λ e. OpensDeskBuiltIn words.now e.value) }
    ensures refused { IfErr result (NotBrought words.now) }
{
    match brought(alloc, words) {
        Ok(dict) => begin(alloc, dict, Answers::new(alloc)),
        Err(why) => Err(why),
    }
}

/// A desk over the dictionary that the bytes spell, with the answers of its own saved text, or why there is none.
pub fn load_desk(alloc: Global, bytes: &[u8], saved: &[u8]) -> Result<Box<DeskEngine>, NotBegun>
    ensures loaded { IfOk result (λ e. LoadsDesk bytes.now saved.now e.value) }
    ensures refused { IfErr result (NotLoaded bytes.now saved.now) }
{
    match standard_dictionary(alloc, bytes) {
        Ok(dict) => begin_loaded(alloc, dict, saved),
        Err(why) => Err(why),
    }
}
