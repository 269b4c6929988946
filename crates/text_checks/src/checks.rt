// The four checks, for closures to call.
ghost use Rattle.std.specs.Prelude.{◌≡◌};
ghost use Rattle.std.specs.Char.{is_ascii_digit};
ghost use Rattle.std.specs.List.{list_all};
ghost use Rattle.text_checks.specs.Checks.{check_says, is_blank as blank_at};

/// How many bytes `nine_digits` asks for.
const NINE: usize = 9;

/// Code 1: one or more ASCII digits.
pub fn digits(text: &str) -> bool
    ensures { result ≡ check_says 1 text.now }
{
    !text.is_empty() && are_digits(text)
}

/// Code 2: nine ASCII digits.
pub fn nine_digits(text: &str) -> bool
    ensures { result ≡ check_says 2 text.now }
{
    text.len() == NINE && are_digits(text)
}

/// Code 3: bytes from 32 to 126 alone, or none.
pub fn printable_ascii(text: &str) -> bool
    ensures { result ≡ check_says 3 text.now }
{
    text.as_bytes().iter().all(|b| 32 <= *b && *b <= 126)
}

/// Code 4: no blank first or last.
pub fn trimmed(text: &str) -> bool
    ensures { result ≡ check_says 4 text.now }
{
    let bytes = text.as_bytes();
    !is_blank(bytes.first().copied()) && !is_blank(bytes.last().copied())
}

fn are_digits(text: &str) -> bool
    ensures { result ≡ list_all is_ascii_digit text.now }
{
    text.as_bytes().iter().all(|b| b.is_ascii_digit())
}

fn is_blank(byte: Option<u8>) -> bool
    ensures { result ≡ blank_at byte }
{
    match byte {
        Some(b) => b == b' ',
        None => false,
    }
}
