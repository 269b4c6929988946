// What C calls of a desk. fact_graph.h says what C must uphold. Each contract says of the desk that a handle holds what the call
// answers, and which desk it hands back.
ghost use Rattle.std.specs.Prelude.{◌≡◌, ◌++◌, length, take, drop, min, IfOk, IfErr, Some};
ghost use Rattle.fact_graph_c.specs.DeskAnswers.{desk_said};
ghost use Rattle.fact_graph_c.specs.DeskCalls.{AnswersDeskCall, BeginsDeskCall, DeskSaysCall, TrimsDeskText};
ghost use Rattle.fact_graph_c.specs.DeskOpenings.{LoadsDesk, OpensDesk, OpensDeskBuiltIn};
ghost use Rattle.fact_graph_c.specs.DeskSaying.{IsDeskSaved};
ghost use Rattle.fact_graph_c.specs.Faults.{fault_numbers, plain};
ghost use Rattle.fact_graph_c.specs.Openings.{NotBrought, NotLoaded, NotOpened};
ghost use Rattle.fact_graph_c.specs.Outcomes.{outcome_number};

use crate::desk_answering::answer_at_desk;
use crate::desk_engine::DeskEngine;
use crate::desk_handle::DeskHandle;
use crate::desk_opening::{load_desk, open_desk, open_desk_built_in};
use crate::desk_saving::save_desk;
use crate::desk_slot::{DeskSlot, keep_desk};
use crate::fault::{Fault, NotBegun, fault_of, no_fault};
use crate::outcome::{Outcome, number_of};
use crate::text::Text;
use std::alloc::Global;

// Hands a desk to C, or tells why there is none.
fn hand_out(begun: Result<Box<DeskEngine>, NotBegun>, desk: &mut DeskSlot, fault: &mut Fault)
    ensures begun { IfOk begun (λ e. (desk.new.value ≡ Some e.value) × (fault.new ≡ plain 0)) }
    ensures output { IfErr begun (λ why. (desk.new ≡ desk.old) × (fault.new ≡ fault_numbers why)) }
{
    match begun {
        Ok(engine) => {
            *desk = keep_desk(engine);
            *fault = no_fault();
        }
        Err(why) => *fault = fault_of(why),
    }
}

// Hands a desk back to C, and tells how the call on it ended and how long its text is.
fn hand_back(
    engine: Box<DeskEngine>,
    outcome: Outcome,
    text_size: &mut usize,
    back: &mut DeskSlot,
) -> u32
    ensures size { text_size.new ≡ length (desk_said engine.value) }
    ensures back { back.new.value ≡ Some engine.value }
    ensures number { result ≡ outcome_number outcome }
{
    *text_size = engine.text.len();
    *back = keep_desk(engine);
    number_of(outcome)
}

/// Opens a desk over a dictionary.
#[unsafe(no_mangle)]
pub extern "C" fn fact_graph_desk_open(
    alloc: Global,
    dictionary: &[u8],
    desk: &mut DeskSlot,
    fault: &mut Fault,
) -> u32
    ensures begun { BeginsDeskCall (OpensDesk dictionary.now) (NotOpened dictionary.now) desk.old desk.new fault.new }
    ensures number { result ≡ fault.new.number }
{
    hand_out(open_desk(alloc, dictionary), desk, fault);
    fault.number
}

/// Opens a desk over a dictionary that comes with the library.
#[unsafe(no_mangle)]
pub extern "C" fn fact_graph_desk_open_built_in(
    alloc: Global,
    words: &[u8],
    desk: &mut DeskSlot,
    fault: &mut Fault,
) -> u32
    ensures begun { BeginsDeskCall (OpensDeskBuiltIn words.now) (NotBrought words.now) desk.old desk.new fault.new }
    ensures number { result ≡ fault.new.number }
{
    hand_out(open_desk_built_in(alloc, words), desk, fault);
    fault.number
}

/// Opens a desk over a dictionary, with the answers of a saved text.
#[unsafe(no_mangle)]
pub extern "C" fn fact_graph_desk_load(
    alloc: Global,
    dictionary: &[u8],
    saved: &[u8],
    desk: &mut DeskSlot,
    fault: &mut Fault,
) -> u32
    ensures begun { BeginsDeskCall (LoadsDesk dictionary.now saved.now) (NotLoaded dictionary.now saved.now) desk.old
        desk.new fault.new }
    ensures number { result ≡ fault.new.number }
{
    hand_out(load_desk(alloc, dictionary, saved), desk, fault);
    fault.number
}

/// Answers a line of a party.
#[unsafe(no_mangle)]
pub extern "C" fn fact_graph_desk_answer(
    alloc: Global,
    desk: DeskHandle,
    line: &[u8],
    text_size: &mut usize,
    back: &mut DeskSlot,
) -> u32
    ensures { AnswersDeskCall desk.value line.now text_size.new back.new.value result }
{
    let mut engine = desk.into_box();
    let outcome = answer_at_desk(alloc, &mut engine, line);
    hand_back(engine, outcome, text_size, back)
}

/// Makes the saved text of a desk.
#[unsafe(no_mangle)]
pub extern "C" fn fact_graph_desk_save(
    desk: DeskHandle,
    text_size: &mut usize,
    back: &mut DeskSlot,
) -> u32
    ensures { DeskSaysCall (IsDeskSaved desk.value) desk.value text_size.new back.new.value result }
{
    let mut engine = desk.into_box();
    let outcome = save_desk(&mut engine);
    hand_back(engine, outcome, text_size, back)
}

/// Gives back the memory of the text.
#[unsafe(no_mangle)]
pub extern "C" fn fact_graph_desk_trim(alloc: Global, desk: DeskHandle, back: &mut DeskSlot)
    ensures { TrimsDeskText desk.value back.new.value }
{
    let mut engine = desk.into_box();
    engine.text = Text::new(alloc);
    *back = keep_desk(engine);
}

/// Copies the text from a place on.
#[unsafe(no_mangle)]
pub extern "C" fn fact_graph_desk_read(
    desk: DeskHandle,
    from: usize,
    out: &mut [u8],
    back: &mut DeskSlot,
) -> usize
    ensures count { result ≡ min (length out.old) (length (drop from (desk_said desk.value))) }
    ensures copied { out.new ≡ take result (drop from (desk_said desk.value)) ++ drop result out.old }
    ensures back { back.new.value ≡ Some desk.value }
{
    let engine = desk.into_box();
    let count = engine.text.copy(from, out);
    *back = keep_desk(engine);
    count
}

/// Ends a desk.
#[unsafe(no_mangle)]
pub extern "C" fn fact_graph_desk_close(desk: DeskHandle) {
    drop(desk.into_box());
}
