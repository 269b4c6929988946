// Reads the parts of a line.
ghost use Rattle.std.specs.Prelude.{◌≡◌, ◌≢◌, ◌↔◌, ◌∷◌, ℕ, MatchOption, IsTrue, codes, decimal, option_copied, option_map};
ghost use Rattle.fact_paths.specs.Cuts.{after, cut};
ghost use Rattle.saved_text.specs.Parsing.{IsNextNumber, ReadsMember, ReadsMembers};

use fact_paths::read_member_number;
use script_lines::LineFault;
use std::alloc::Global;

/// The texts in front of the first blank and behind it.
pub fn at_blank(text: &str) -> Option<(&str, &str)>
    ensures { option_map (λ parts. (parts.0.now, parts.1.now)) result ≡ cut 32 text.now }
{
    text.split_once(' ')
}

/// What stands behind the word, where the text begins with it.
pub fn behind<'a>(word: &str, text: &'a str) -> Option<&'a str>
    ensures { option_copied result ≡ after word.now text.now }
{
    text.strip_prefix(word)
}

/// Whether the text is the word.
pub fn is_word(text: &str, word: &str) -> bool
    ensures { IsTrue result ↔ (text.now ≡ word.now) }
{
    text == word
}

/// The number of the next member, from 1 to 1,000,001, that the digits spell.
pub fn read_next(digits: &str) -> Option<u32>
    ensures { MatchOption result ((k : ℕ) → IsNextNumber k → digits.now ≢ decimal k) (λ k. IsNextNumber k
        × (digits.now ≡ decimal k)) }
{
    if is_word(digits, "1000001") {
        return Some(1_000_001);
    }
    read_member_number(digits)
}

// One more member, which the word spells.
fn read_member(word: &str, found: &mut Vec<u32>) -> Result<(), LineFault>
    ensures { ReadsMember word.now found.old.items found.new.items result }
{
    let Some(digits) = behind("#", word) else {
        return Err(LineFault::BadLine);
    };
    let Some(number) = read_member_number(digits) else {
        return Err(LineFault::BadLine);
    };
    match found.push(number) {
        Err(_) => Err(LineFault::NoMemory),
        Ok(()) => Ok(()),
    }
}

/// The members of which this is the text behind the first blank.
pub fn read_members(alloc: Global, text: &str) -> Result<Vec<u32>, LineFault>
    ensures { ReadsMembers (32 ∷ text.now) result }
{
    let mut found = Vec::new(alloc);
    let mut rest = text;
    while let Some((word, others)) = at_blank(rest) {
        match read_member(word, &mut found) {
            Err(fault) => return Err(fault),
            Ok(()) => {}
        }
        rest = others;
    }
    match read_member(rest, &mut found) {
        Err(fault) => Err(fault),
        Ok(()) => Ok(found),
    }
}
