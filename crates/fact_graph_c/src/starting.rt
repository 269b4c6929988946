// Begins sessions over the dictionaries that hosts bring.
ghost use Rattle.std.specs.Prelude.{◌≡◌, IfErr, IfOk};
ghost use Rattle.text_checks.specs.Tables.{named_checks};
ghost use Rattle.graph_session.specs.Rules.{rules};
ghost use Rattle.fact_graph_c.specs.Starts.{NotStarted, NotStartedOver, Starts, StartsOver};
ghost use Rattle.session_lines.specs.Tables.{standard_checks};

use crate::engine::Engine;
use crate::fault::NotBegun;
use crate::opening::{
    accepted_dictionary, begin_carried, begin_loaded, begin_silent, wants_memory,
};
use crate::resuming::begin_resumed;
use crate::start::Start;
use answers::Answers;
use dictionary::Dictionary;
use session_lines::standard_checks;
use std::alloc::{AllocError, Global};
use text_checks::CheckTable;

// A session over the dictionary that begins so.
fn start_over(
    alloc: Global,
    dict: Dictionary,
    checks: &CheckTable,
    start: Start,
    saved: &[u8],
) -> Result<Box<Engine>, NotBegun>
    requires same { dict.checks ≡ standard_checks }
    requires checks { named_checks checks.now ≡ standard_checks }
    ensures started { IfOk result (λ e. StartsOver start (rules dict) saved.now e.value) }
    ensures refused { IfErr result (NotStartedOver start (rules dict) saved.now) }
{
    match start {
        Start::Fresh => begin_silent(alloc, dict, Answers::new(alloc)),
        Start::Loaded => begin_loaded(alloc, dict, saved),
        Start::Carried => begin_carried(alloc, dict, checks, saved),
        Start::Resumed => begin_resumed(alloc, dict, checks, saved),
    }
}

fn start_by(
    alloc: Global,
    checks: &CheckTable,
    bytes: &[u8],
    start: Start,
    saved: &[u8],
) -> Result<Box<Engine>, NotBegun>
    requires { named_checks checks.now ≡ standard_checks }
    ensures started { IfOk result (λ e. Starts start bytes.now saved.now e.value) }
    ensures refused { IfErr result (NotStarted start bytes.now saved.now) }
{
    match accepted_dictionary(alloc, checks, bytes) {
        Ok(dict) => start_over(alloc, dict, checks, start, saved),
        Err(why) => Err(why),
    }
}

fn try_start(
    alloc: Global,
    bytes: &[u8],
    start: Start,
    saved: &[u8],
) -> Result<Result<Box<Engine>, NotBegun>, AllocError>
    ensures started { IfOk result (λ r. IfOk r (λ e. Starts start bytes.now saved.now e.value)) }
    ensures refused { IfOk result (λ r. IfErr r (NotStarted start bytes.now saved.now)) }
{
    let mut checks = CheckTable::new(alloc);
    standard_checks!(alloc, checks);
    Ok(start_by(alloc, &checks, bytes, start, saved))
}

/// A session over the dictionary that the bytes spell, or why there is none. It says which lines of a text that is carried or
/// resumed aren't kept. A fresh one reads no text.
pub fn open(
    alloc: Global,
    bytes: &[u8],
    start: Start,
    saved: &[u8],
) -> Result<Box<Engine>, NotBegun>
    ensures started { IfOk result (λ e. Starts start bytes.now saved.now e.value) }
    ensures refused { IfErr result (NotStarted start bytes.now saved.now) }
{
    match try_start(alloc, bytes, start, saved) {
        Ok(opened) => opened,
        Err(_) => Err(wants_memory()),
    }
}
