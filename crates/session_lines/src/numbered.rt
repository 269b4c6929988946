// Appends a text and a number to a line.
ghost use Rattle.std.specs.Prelude.{◌≡◌, ◌+◌, ◌≤◌, ◌++◌, length};
ghost use Rattle.session_lines.specs.Replies.{numbered};

use itoa::Buffer;
use value_text::Line;

/// Appends a text and a number behind it.
pub fn print_numbered(text: &str, number: u64, line: &mut Line)
    requires { length line.old + (length text.now + 40) ≤ 1100 }
    ensures text { line.new ≡ line.old ++ numbered text.now number }
    ensures short { length line.new ≤ length line.old + (length text.now + 40) }
{
    line.push(text.as_bytes());
    let mut buffer = Buffer::new();
    line.push(buffer.format(number).as_bytes());
}
