// The texts of amounts.
ghost use Rattle.std.specs.Prelude.{◌≡◌, ℤ, pos, neg_ℤ, ◌+◌, ◌^◌, ◌<◌, ◌≤◌, ◌++◌, length, Some, IfSome, MatchOption};
ghost use Rattle.value_text.specs.Dollars.{SpellsDollar, size_at, dollar_at, printed_size, printed_dollar};

use crate::digits::read_digits;
use crate::line::Line;
use fact_values::Dollar;
use itoa::Buffer;

// The cents that a text without a sign spells.
fn read_size(text: &[u8]) -> Option<u64>
    ensures value { result ≡ size_at text.now }
    ensures small { IfSome result (λ size. size < 10 ^ 15) }
{
    if text.is_empty() {
        return None;
    }
    let cut = text.len().saturating_sub(3);
    if text[cut] == b'.' {
        let dollars = read_digits(1, 13, &text[..cut])?;
        let cents = read_digits(2, 2, &text[cut + 1..])?;
        return Some(100 * dollars + cents);
    }
    let dollars = read_digits(1, 13, text)?;
    Some(100 * dollars)
}

// The amount of minus so many cents.
fn negative(size: u64) -> Option<Dollar>
    requires { size < 10 ^ 15 }
    ensures { result ≡ Some (neg_ℤ (pos size)) }
{
    Dollar::new(-(size as i64))
}

// The amount that the bytes of a text spell.
fn read_amount(text: &[u8]) -> Option<Dollar>
    ensures { result ≡ dollar_at text.now }
{
    if text.is_empty() {
        return None;
    }
    if text[0] == b'-' {
        let size = read_size(&text[1..])?;
        return negative(size);
    }
    let size = read_size(text)?;
    Dollar::new(size as i64)
}

/// The amount that a text spells: a `-` or none, then 1 to 13 digits, then a point and two digits
/// or nothing. `None` where it spells none.
#[tactic(auto, using(crate::proofs::SpellingLaws::spelled_by))]
pub fn read_dollar(text: &str) -> Option<Dollar>
    ensures spelled { MatchOption result
        ((amount : ℤ) → SpellsDollar text.now amount → ⊥)
        (λ amount. SpellsDollar text.now amount) }
    ensures value { result ≡ dollar_at text.now }
{
    read_amount(text.as_bytes())
}

// Appends the cents of an amount that is not negative, with two decimals.
#[tactic(auto, using(crate::proofs::PrintedLaws::dollars_short))]
fn print_size(size: u64, out: &mut Line)
    requires small { size < 10 ^ 15 }
    requires room { length out.old + 16 ≤ 1100 }
    ensures appended { out.new ≡ out.old ++ printed_size size }
    ensures short { length out.new ≤ length out.old + 16 }
{
    let mut buffer = Buffer::new();
    out.push(buffer.format(size / 100).as_bytes());
    out.push(&[
        b'.',
        b'0' + (size / 10 % 10) as u8,
        b'0' + (size % 10) as u8,
    ]);
}

/// Appends an amount with two decimals, as `-0.05`.
pub fn print_dollar(amount: Dollar, out: &mut Line)
    requires { length out.old + 17 ≤ 1100 }
    ensures appended { out.new ≡ out.old ++ printed_dollar amount }
    ensures short { length out.new ≤ length out.old + 17 }
{
    let cents = amount.cents();
    if cents < 0 {
        out.push(b"-");
    }
    print_size(cents.unsigned_abs(), out);
}
