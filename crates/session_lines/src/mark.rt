// The mark of a line of a reply: to whom it is told.
ghost use Rattle.std.specs.Prelude.{◌≡◌, ◌≤◌, [], length};
ghost use Rattle.session_lines.specs.Marks.{mark_text};

use crate::numbered::print_numbered;
use value_text::Line;

/// To whom a line of a reply is told.
#[derive(Clone, Copy, Debug, PartialEq, Eq)]
pub enum PartyMark {
    /// To the one person of a session: nothing stands before it.
    Unmarked,
    /// To a party at a desk, whose mark stands before it.
    Party(u32),
}

/// Prints the mark into an empty line.
pub fn print_mark(mark: PartyMark, line: &mut Line)
    requires { line.old ≡ [] }
    ensures text { line.new ≡ mark_text mark }
    ensures short { length line.new ≤ 42 }
{
    match mark {
        PartyMark::Unmarked => {}
        PartyMark::Party(party) => {
            print_numbered("@", party as u64, line);
            line.push(b" ");
        }
    }
}
