// Cuts the first line off bytes.
ghost use Rattle.std.specs.Prelude.{◌≡◌, ◌<◌, ◌∷◌, IfNone, IfSome, length};
ghost use Rattle.script_lines.specs.Lines.{HasNoNewline, IsNewlineAt, lines_of};

/// The place of the first newline.
pub fn newline_at(bytes: &[u8]) -> Option<usize>
    ensures found { IfSome result (IsNewlineAt bytes.now) }
    ensures none { IfNone result (HasNoNewline bytes.now) }
{
    bytes.iter().position(|byte| *byte == b'\n')
}

/// The first line, without its newline, and what stands behind that.
pub fn cut_line(bytes: &[u8]) -> (&[u8], &[u8])
    requires { 0 < length bytes.now }
    ensures lines { lines_of bytes.now ≡ result.0.now ∷ lines_of result.1.now }
    ensures shorter { length result.1.now < length bytes.now }
{
    match newline_at(bytes) {
        None => (bytes, &[]),
        Some(at) => (&bytes[..at], &bytes[at + 1..]),
    }
}
