// The texts of refusals of a desk. Nothing here takes memory.
ghost use Rattle.std.specs.Prelude.{◌≡◌, ◌≤◌, [], length};
ghost use Rattle.desk_lines.specs.DeskStepping.{desk_refusal_text};

use session_lines::{print_numbered, print_refusal};
use shared_desk::DeskRefusal;
use value_text::Line;

/// Prints into an empty line why a line of a party is refused, without its mark and its newline.
pub fn print_desk_refusal(refusal: DeskRefusal, line: &mut Line)
    requires { line.old ≡ [] }
    ensures text { line.new ≡ desk_refusal_text refusal }
    ensures short { length line.new ≤ 1050 }
{
    match refusal {
        DeskRefusal::Session(refusal) => print_refusal(refusal, line),
        DeskRefusal::Stale(change) => print_numbered("refused 20 Stale ", change, line),
        DeskRefusal::NotYours(party) => {
            print_numbered("refused 21 NotYours ", party as u64, line)
        }
    }
}
