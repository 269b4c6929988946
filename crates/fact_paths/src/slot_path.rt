// The paths by which a command names a slot.
ghost use Rattle.std.specs.Prelude.{◌≡◌, ℕ, MatchOption};
ghost use Rattle.std.specs.Str.{all_ascii_digits};
ghost use Rattle.fact_paths.specs.Cuts.{at_slash};
ghost use Rattle.fact_paths.specs.Paths.{Reads, SpellsMemberNumber, SpellsSlotPath};
ghost use Rattle.fact_paths.specs.Parsing.{Gives, is_numeral, member_number_of, slot_member_from, slot_path_from};

use crate::cut::{cut_at_slash, strip};
use crate::fault::PathFault;
use crate::name::{Name, read_name};
use std::alloc::Global;
use std::fmt;

/// The path of a slot: a fact that stands once, or a fact of one member.
#[derive(Debug, PartialEq, Eq, Drop)]
pub enum SlotPath {
    /// `/N`: the global fact.
    Global(Name),
    /// `/N/#K/M`: the fact of member K, from 1 to 1,000,000, of the collection `/N`.
    Member(Name, u32, Name),
}

fn are_digits(text: &[u8]) -> bool
    ensures { result ≡ all_ascii_digits text.now }
{
    for byte in text {
        if !byte.is_ascii_digit() {
            return false;
        }
    }
    true
}

fn is_numeral_text(text: &[u8]) -> bool
    ensures { result ≡ is_numeral text.now }
{
    match text {
        [] => false,
        [first, ..] => *first > b'0' && are_digits(text),
    }
}

fn member_number(text: &str) -> Option<u32>
    ensures { result ≡ member_number_of text.now }
{
    if !is_numeral_text(text.as_bytes()) {
        return None;
    }
    match text.parse::<u32>() {
        Err(_) => None,
        Ok(number) => {
            if number <= 1_000_000 {
                Some(number)
            } else {
                None
            }
        }
    }
}

/// The number of a member, from 1 to 1,000,000, that the text spells in decimal without a leading zero.
pub fn read_member_number(text: &str) -> Option<u32>
    ensures number { result ≡ member_number_of text.now }
    ensures spelled { MatchOption result ((k : ℕ) → ¬ (SpellsMemberNumber text.now k)) (SpellsMemberNumber text.now) }
{
    member_number(text)
}

fn read_member(alloc: Global, collection: &str, text: &str) -> Result<SlotPath, PathFault>
    ensures { Gives (slot_member_from collection.now (at_slash text.now)) result }
{
    let Some((number, name)) = cut_at_slash(text) else {
        return Err(PathFault::BadPath);
    };
    let Some(number) = member_number(number) else {
        return Err(PathFault::BadPath);
    };
    let collection = read_name(alloc, collection)?;
    let name = read_name(alloc, name)?;
    Ok(SlotPath::Member(collection, number, name))
}

fn read_rooted(alloc: Global, text: &str) -> Result<SlotPath, PathFault>
    ensures { Gives (slot_path_from text.now (at_slash text.now)) result }
{
    match cut_at_slash(text) {
        None => Ok(SlotPath::Global(read_name(alloc, text)?)),
        Some((collection, rest)) => match strip(rest, "#") {
            None => Err(PathFault::BadPath),
            Some(member) => read_member(alloc, collection, member),
        },
    }
}

/// The path that the text spells.
#[inline(always)]
pub fn read_slot_path(alloc: Global, text: &str) -> Result<SlotPath, PathFault>
    ensures { Reads SpellsSlotPath text.now result }
{
    match strip(text, "/") {
        None => Err(PathFault::BadPath),
        Some(rest) => read_rooted(alloc, rest),
    }
}

impl fmt::Display for SlotPath {
    ghost use Rattle.std.specs.Prelude.{Some};
    ghost use Rattle.fact_paths.specs.Paths.{slot_path_text};

    ghost output = { λ path. Some (slot_path_text path) };

    fn fmt<W: fmt::Write>(&self, f: &mut fmt::Formatter<W>) -> fmt::Result {
        match self {
            SlotPath::Global(n) => write!(f, "/{n}"),
            SlotPath::Member(n, k, m) => write!(f, "/{n}/#{k}/{m}"),
        }
    }
}
