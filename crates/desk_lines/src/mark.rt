// The mark of a party, which stands before each of its lines.
ghost use Rattle.std.specs.Prelude.{◌≡◌, ◌≢◌, ◌≤◌, All, IfNone, IfSome, codes, length, option_copied, option_map};
ghost use Rattle.fact_paths.specs.Cuts.{after};
ghost use Rattle.script_lines.specs.Parsing.{at_blank as cut_at_blank};
ghost use Rattle.desk_lines.specs.PartyLines.{IsBlankAt, party_number_of, party_of as party_in};

use fact_paths::read_member_number;

/// The last party.
const LAST: u32 = 16;

// The text behind the sign of a party.
fn behind_sign(line: &[u8]) -> Option<&[u8]>
    ensures sign { option_copied result ≡ after (codes "@") line.now }
    ensures short { IfSome result (λ rest. length rest.now ≤ length line.now) }
{
    line.strip_prefix(b"@")
}

// The place of the first blank.
fn blank_at(text: &[u8]) -> Option<usize>
    ensures found { IfSome result (IsBlankAt text.now) }
    ensures none { IfNone result (All (λ b. b ≢ 32) text.now) }
{
    text.iter().position(|byte| *byte == b' ')
}

// Cuts the text at its first blank.
fn at_blank(text: &[u8]) -> Option<(&[u8], &[u8])>
    ensures parts { option_map (λ parts. (parts.0.now, parts.1.now)) result ≡ cut_at_blank text.now }
    ensures short { IfSome result (λ parts. length parts.1.now ≤ length text.now) }
{
    match blank_at(text) {
        None => None,
        Some(at) => Some((&text[..at], &text[at + 1..])),
    }
}

// The party that these digits spell.
fn read_party(digits: &[u8]) -> Option<u32>
    ensures { result ≡ party_number_of digits.now }
{
    let Ok(digits) = str::from_utf8(digits) else {
        return None;
    };
    let party = read_member_number(digits)?;
    if party <= LAST { Some(party) } else { None }
}

/// The party whose mark a line begins with, and what stands behind the mark.
pub fn party_of(line: &[u8]) -> Option<(u32, &[u8])>
    ensures part { option_map (λ part. (part.0, part.1.now)) result ≡ party_in line.now }
    ensures short { IfSome result (λ part. length part.1.now ≤ length line.now) }
{
    let behind = behind_sign(line)?;
    let (digits, rest) = at_blank(behind)?;
    let party = read_party(digits)?;
    Some((party, rest))
}
