// Writes the line that says why a line of a party is refused.
ghost use Rattle.std.specs.Prelude.{◌≡◌, ◌≤◌};
ghost use Rattle.shared_desk.specs.Refusals.{wants_memory};
ghost use Rattle.desk_lines.specs.DeskAnswering.{DeskRefusedAs};

use crate::reply::print_desk_refusal;
use fg_io::Sink;
use graph_session::is_want_of_memory;
use session_lines::{PartyMark, Progress, write_line};
use shared_desk::DeskRefusal;
use value_text::Line;

fn is_memory(refusal: DeskRefusal) -> bool
    ensures { result ≡ wants_memory refusal }
{
    match refusal {
        DeskRefusal::Session(refusal) => is_want_of_memory(refusal),
        DeskRefusal::Stale(_) => false,
        DeskRefusal::NotYours(_) => false,
    }
}

/// Writes why a line of a party is refused.
pub fn write_refusal<K: Sink>(party: u32, refusal: DeskRefusal, out: &mut K) -> Progress
    ensures written { DeskRefusedAs (K.output out.old) (K.output out.new) party refusal result }
    ensures later { (K.output out.old).faults ≤ (K.output out.new).faults }
{
    if is_memory(refusal) {
        return Progress::OutOfMemory;
    }
    let mut text = Line::new();
    print_desk_refusal(refusal, &mut text);
    write_line(PartyMark::Party(party), &mut text, out)
}
