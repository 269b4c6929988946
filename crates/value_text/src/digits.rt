// Numbers that are written as digits.
ghost use Rattle.std.specs.Prelude.{◌≡◌, ◌^◌, ◌<◌, ◌≤◌, length, Some, None, if◌then◌else◌, IfSome};
ghost use Rattle.std.specs.Str.{all_ascii_digits};
ghost use Rattle.std.specs.Str.Parse.{digits_value};
ghost use Rattle.value_text.specs.Digits.{number_at};

// The number that digits write, or None where a byte is no digit.
fn digits_number(text: &[u8]) -> Option<u64>
    requires { length text.now ≤ 15 }
    ensures value { result ≡ if all_ascii_digits text.now then Some (digits_value 10 text.now) else None }
    ensures small { IfSome result (λ number. number < 10 ^ length text.now) }
{
    let mut number = 0;
    for byte in text {
        if !byte.is_ascii_digit() {
            return None;
        }
        number = 10 * number + u64::from(*byte - b'0');
    }
    Some(number)
}

/// The number that a text of `least` to `most` digits writes. Leading zeros are read.
pub(crate) fn read_digits(least: usize, most: usize, text: &[u8]) -> Option<u64>
    requires { most ≤ 15 }
    ensures value { result ≡ number_at least most text.now }
    ensures small { IfSome result (λ number. number < 10 ^ most) }
{
    if text.len() < least {
        return None;
    }
    if most < text.len() {
        return None;
    }
    digits_number(text)
}
