// What C calls. fact_graph.h says what C must uphold. Each contract says of the engine that a handle holds what the call answers,
// and which engine it hands back.
ghost use Rattle.std.specs.Prelude.{◌≡◌, ◌++◌, ℕ, List, length, take, drop, min, IfOk, IfErr, Some};
ghost use Rattle.fact_graph_c.specs.Answering.{rules_of, said};
ghost use Rattle.fact_graph_c.specs.Calls.{AnswersCall, BeginsCall, HandsBack, KeepsChanges, SaysCall, TrimsText};
ghost use Rattle.fact_graph_c.specs.Faults.{fault_numbers, plain};
ghost use Rattle.fact_graph_c.specs.Openings.{Carries, IsFurther, IsWantOfMemory, Loads, NotBrought, NotCarried, NotLoaded, NotOpened, Opens, OpensBuiltIn, Resumes};
ghost use Rattle.fact_graph_c.specs.Outcomes.{outcome_number};
ghost use Rattle.fact_graph_c.specs.Printing.{IsDescription, IsDictionaryText, IsFactsText};
ghost use Rattle.fact_graph_c.specs.SlotReads.{IsReads};
ghost use Rattle.fact_graph_c.specs.Saving.{IsSaved};

use crate::answering::answer;
use crate::bringing::open_built_in;
use crate::engine::Engine;
use crate::fault::{Fault, NotBegun, fault_of, no_fault};
use crate::handle::Handle;
use crate::opening::begin_further;
use crate::outcome::{Outcome, number_of};
use crate::printing::{say_description, say_dictionary, say_facts};
use crate::reading::say_reads;
use crate::saving::save_answers;
use crate::session_slot::{SessionSlot, keep};
use crate::start::Start;
use crate::starting::open;
use crate::text::Text;
use std::alloc::Global;

// How long the text of a session is that begins.
fn size_of_text(begun: &Result<Box<Engine>, NotBegun>) -> usize
    ensures some { IfOk begun.now (λ e. result ≡ length (said e.value)) }
    ensures none { IfErr begun.now (λ _. result ≡ 0) }
{
    match begun {
        Ok(engine) => engine.text.len(),
        Err(_) => 0,
    }
}

// Hands a session to C, or tells why there is none.
fn hand_out(begun: Result<Box<Engine>, NotBegun>, graph: &mut SessionSlot, fault: &mut Fault)
    ensures begun { IfOk begun (λ e. (graph.new.value ≡ Some e.value) × (fault.new ≡ plain 0)) }
    ensures output { IfErr begun (λ why. (graph.new ≡ graph.old) × (fault.new ≡ fault_numbers why)) }
{
    match begun {
        Ok(engine) => {
            *graph = keep(engine);
            *fault = no_fault();
        }
        Err(why) => *fault = fault_of(why),
    }
}

// Hands a session back to C, and tells how the call on it ended and how long its text is.
fn hand_back(
    engine: Box<Engine>,
    outcome: Outcome,
    text_size: &mut usize,
    back: &mut SessionSlot,
) -> u32
    ensures size { text_size.new ≡ length (said engine.value) }
    ensures back { back.new.value ≡ Some engine.value }
    ensures number { result ≡ outcome_number outcome }
{
    *text_size = engine.text.len();
    *back = keep(engine);
    number_of(outcome)
}

/// Opens a session over a dictionary.
#[unsafe(no_mangle)]
pub extern "C" fn fact_graph_open(
    alloc: Global,
    dictionary: &[u8],
    graph: &mut SessionSlot,
    fault: &mut Fault,
) -> u32
    ensures begun { BeginsCall (Opens dictionary.now) (NotOpened dictionary.now) graph.old graph.new fault.new }
    ensures number { result ≡ fault.new.number }
{
    hand_out(open(alloc, dictionary, Start::Fresh, &[]), graph, fault);
    fault.number
}

/// Opens a session over a dictionary that comes with the library.
#[unsafe(no_mangle)]
pub extern "C" fn fact_graph_open_built_in(
    alloc: Global,
    words: &[u8],
    graph: &mut SessionSlot,
    fault: &mut Fault,
) -> u32
    ensures begun { BeginsCall (OpensBuiltIn words.now) (NotBrought words.now) graph.old graph.new fault.new }
    ensures number { result ≡ fault.new.number }
{
    hand_out(open_built_in(alloc, words), graph, fault);
    fault.number
}

/// Opens a further session over the dictionary of one, which both share.
#[unsafe(no_mangle)]
pub extern "C" fn fact_graph_further(
    alloc: Global,
    graph: Handle,
    further: &mut SessionSlot,
    fault: &mut Fault,
    back: &mut SessionSlot,
) -> u32
    ensures begun { BeginsCall (IsFurther graph.value) IsWantOfMemory further.old further.new fault.new }
    ensures number { result ≡ fault.new.number }
    ensures same { HandsBack graph.value back.new.value }
{
    let mut engine = graph.into_box();
    let begun = begin_further(alloc, &mut engine);
    *back = keep(engine);
    hand_out(begun, further, fault);
    fault.number
}

/// Opens a session over a dictionary, with the answers of a saved text.
#[unsafe(no_mangle)]
pub extern "C" fn fact_graph_load(
    alloc: Global,
    dictionary: &[u8],
    saved: &[u8],
    graph: &mut SessionSlot,
    fault: &mut Fault,
) -> u32
    ensures begun { BeginsCall (Loads dictionary.now saved.now) (NotLoaded dictionary.now saved.now) graph.old graph.new
        fault.new }
    ensures number { result ≡ fault.new.number }
{
    hand_out(open(alloc, dictionary, Start::Loaded, saved), graph, fault);
    fault.number
}

/// Opens a session over a dictionary, with what may stand of a saved text.
#[unsafe(no_mangle)]
pub extern "C" fn fact_graph_carry(
    alloc: Global,
    dictionary: &[u8],
    saved: &[u8],
    graph: &mut SessionSlot,
    text_size: &mut usize,
    fault: &mut Fault,
) -> u32
    ensures begun { BeginsCall (λ e. Carries dictionary.now saved.now e × (text_size.new ≡ length (said e)))
        (λ why. NotCarried dictionary.now saved.now why × (text_size.new ≡ 0)) graph.old graph.new fault.new }
    ensures number { result ≡ fault.new.number }
{
    let begun = open(alloc, dictionary, Start::Carried, saved);
    *text_size = size_of_text(&begun);
    hand_out(begun, graph, fault);
    fault.number
}

/// Opens a session over a dictionary, with what may be taken of a saved text that came from outside.
#[unsafe(no_mangle)]
pub extern "C" fn fact_graph_resume(
    alloc: Global,
    dictionary: &[u8],
    saved: &[u8],
    graph: &mut SessionSlot,
    text_size: &mut usize,
    fault: &mut Fault,
) -> u32
    ensures begun { BeginsCall (λ e. Resumes dictionary.now saved.now e × (text_size.new ≡ length (said e)))
        (λ why. NotCarried dictionary.now saved.now why × (text_size.new ≡ 0)) graph.old graph.new fault.new }
    ensures number { result ≡ fault.new.number }
{
    let begun = open(alloc, dictionary, Start::Resumed, saved);
    *text_size = size_of_text(&begun);
    hand_out(begun, graph, fault);
    fault.number
}

/// Answers a line.
#[unsafe(no_mangle)]
pub extern "C" fn fact_graph_answer(
    alloc: Global,
    graph: Handle,
    line: &[u8],
    text_size: &mut usize,
    back: &mut SessionSlot,
) -> u32
    ensures { AnswersCall graph.value line.now text_size.new back.new.value result }
{
    let mut engine = graph.into_box();
    let outcome = answer(alloc, &mut engine, line);
    hand_back(engine, outcome, text_size, back)
}

/// Makes the saved text.
#[unsafe(no_mangle)]
pub extern "C" fn fact_graph_save(
    graph: Handle,
    text_size: &mut usize,
    back: &mut SessionSlot,
) -> u32
    ensures { SaysCall (IsSaved graph.value) graph.value text_size.new back.new.value result }
{
    let mut engine = graph.into_box();
    let outcome = save_answers(&mut engine);
    hand_back(engine, outcome, text_size, back)
}

/// Says the slots that a slot reads.
#[unsafe(no_mangle)]
pub extern "C" fn fact_graph_reads(
    alloc: Global,
    graph: Handle,
    slot: &[u8],
    text_size: &mut usize,
    back: &mut SessionSlot,
) -> u32
    ensures { SaysCall (IsReads graph.value slot.now) graph.value text_size.new back.new.value result }
{
    let mut engine = graph.into_box();
    let outcome = say_reads(alloc, &mut engine, slot);
    hand_back(engine, outcome, text_size, back)
}

/// Says the dictionary as JSON.
#[unsafe(no_mangle)]
pub extern "C" fn fact_graph_dictionary(
    alloc: Global,
    graph: Handle,
    text_size: &mut usize,
    back: &mut SessionSlot,
) -> u32
    ensures { SaysCall (IsDictionaryText (rules_of graph.value)) graph.value text_size.new back.new.value result }
{
    let mut engine = graph.into_box();
    let outcome = say_dictionary(alloc, &mut engine);
    hand_back(engine, outcome, text_size, back)
}

/// Says the dictionary's facts.
#[unsafe(no_mangle)]
pub extern "C" fn fact_graph_facts(
    alloc: Global,
    graph: Handle,
    text_size: &mut usize,
    back: &mut SessionSlot,
) -> u32
    ensures { SaysCall (IsFactsText (rules_of graph.value)) graph.value text_size.new back.new.value result }
{
    let mut engine = graph.into_box();
    let outcome = say_facts(alloc, &mut engine);
    hand_back(engine, outcome, text_size, back)
}

/// Says the description of a fact.
#[unsafe(no_mangle)]
pub extern "C" fn fact_graph_description(
    graph: Handle,
    fact: u32,
    text_size: &mut usize,
    back: &mut SessionSlot,
) -> u32
    ensures { SaysCall (IsDescription (rules_of graph.value) fact) graph.value text_size.new back.new.value result }
{
    let mut engine = graph.into_box();
    let outcome = say_description(&mut engine, fact);
    hand_back(engine, outcome, text_size, back)
}

/// The version of the library as one number: 10,000 times its first part, 100 times its second, and its third.
#[unsafe(no_mangle)]
pub extern "C" fn fact_graph_version() -> u32
    ensures { result ≡ 10200 }
{
    10_200
}

/// Keeps the newest changes, so many at most: those before them can't be undone any more.
#[unsafe(no_mangle)]
pub extern "C" fn fact_graph_keep_changes(graph: Handle, most: usize, back: &mut SessionSlot)
    ensures { KeepsChanges graph.value most back.new.value }
{
    let mut engine = graph.into_box();
    engine.session.keep_changes(most);
    *back = keep(engine);
}

/// Gives back the memory of the text.
#[unsafe(no_mangle)]
pub extern "C" fn fact_graph_trim(alloc: Global, graph: Handle, back: &mut SessionSlot)
    ensures { TrimsText graph.value back.new.value }
{
    let mut engine = graph.into_box();
    engine.text = Text::new(alloc);
    *back = keep(engine);
}

/// Copies the text from a place on.
#[unsafe(no_mangle)]
pub extern "C" fn fact_graph_read(
    graph: Handle,
    from: usize,
    out: &mut [u8],
    back: &mut SessionSlot,
) -> usize
    ensures count { result ≡ min (length out.old) (length (drop from (said graph.value))) }
    ensures copied { out.new ≡ take result (drop from (said graph.value)) ++ drop result out.old }
    ensures back { back.new.value ≡ Some graph.value }
{
    let engine = graph.into_box();
    let count = engine.text.copy(from, out);
    *back = keep(engine);
    count
}

/// Ends a session.
#[unsafe(no_mangle)]
pub extern "C" fn fact_graph_close(graph: Handle) {
    drop(graph.into_box());
}
