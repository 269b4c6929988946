// The texts of truth values.
ghost use Rattle.std.specs.Prelude.{◌≡◌, ◌+◌, ◌≤◌, ◌++◌, length};
ghost use Rattle.value_text.specs.Values.{boolean_at, printed_boolean};

use crate::line::Line;

/// The truth value that a text spells.
pub(crate) fn read_boolean(text: &str) -> Option<bool>
    ensures { result ≡ boolean_at text.now }
{
    if text == "true" {
        return Some(true);
    }
    if text == "false" {
        return Some(false);
    }
    None
}

/// Appends `true` or `false`.
pub(crate) fn print_boolean(b: bool, out: &mut Line)
    requires { length out.old + 5 ≤ 1100 }
    ensures appended { out.new ≡ out.old ++ printed_boolean b }
    ensures short { length out.new ≤ length out.old + 5 }
{
    if b {
        out.push(b"true");
    } else {
        out.push(b"false");
    }
}
