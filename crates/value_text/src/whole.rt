// The texts of whole numbers.
ghost use Rattle.std.specs.Prelude.{◌≡◌, ◌+◌, ◌^◌, ◌<◌, ◌≤◌, ◌++◌, length, IfSome, unsigned_abs, decimal};
ghost use Rattle.value_text.specs.Wholes.{whole_at, printed_whole};

use crate::digits::read_digits;
use crate::line::Line;
use fact_values::Whole;
use itoa::Buffer;

/// The number of 1 to 15 digits, or of these after a `-`.
pub(crate) fn read_number(text: &[u8]) -> Option<i64>
    ensures value { result ≡ whole_at text.now }
    ensures small { IfSome result (λ number. unsigned_abs number < 10 ^ 15) }
{
    if text.is_empty() {
        return None;
    }
    if text[0] == b'-' {
        let size = read_digits(1, 15, &text[1..])?;
        return Some(-(size as i64));
    }
    let size = read_digits(1, 15, text)?;
    Some(size as i64)
}

/// The whole number that a text spells.
pub(crate) fn read_whole(text: &str) -> Option<Whole>
    ensures { result ≡ whole_at text.now }
{
    let number = read_number(text.as_bytes())?;
    Whole::new(number)
}

/// Appends a number without a sign.
#[tactic(auto, using(crate::proofs::Decimals::decimal_within))]
pub(crate) fn print_size(size: u64, out: &mut Line)
    requires small { size < 10 ^ 15 }
    requires room { length out.old + 15 ≤ 1100 }
    ensures appended { out.new ≡ out.old ++ decimal size }
    ensures short { length out.new ≤ length out.old + 15 }
{
    let mut buffer = Buffer::new();
    out.push(buffer.format(size).as_bytes());
}

/// Appends the shortest decimal of a number.
pub(crate) fn print_number(number: i64, out: &mut Line)
    requires small { unsigned_abs number < 10 ^ 15 }
    requires room { length out.old + 16 ≤ 1100 }
    ensures appended { out.new ≡ out.old ++ printed_whole number }
    ensures short { length out.new ≤ length out.old + 16 }
{
    if number < 0 {
        out.push(b"-");
    }
    print_size(number.unsigned_abs(), out);
}
