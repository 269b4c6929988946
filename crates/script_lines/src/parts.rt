// Reads the parts of a command behind its first word.
ghost use Rattle.std.specs.Prelude.{◌≡◌, ◌≢◌, All, IfOk, IfErr, IfNone, IfSome, codes, option_copied, option_map};
ghost use Rattle.fact_paths.specs.Cuts.{IsFirstAt, after};
ghost use Rattle.fact_paths.specs.Parsing.{name_of};
ghost use Rattle.script_lines.specs.Parsing.{Gives, at_blank as cut_at_blank, slot_of, member_of as member_in, slot_and_value_of, slot_and_member_of, name_and_slot_of};
ghost use Rattle.script_lines.specs.declared.fault.LineFault.TheVariants.{NoMemory};

use crate::fault::LineFault;
use crate::value::ValueText;
use fact_paths::{Name, PathFault, SlotPath, read_member_number, read_slot_path};
use std::alloc::Global;

// The place of the first blank.
fn blank_at(text: &[u8]) -> Option<usize>
    ensures found { IfSome result (IsFirstAt 32 text.now) }
    ensures none { IfNone result (All (λ b. b ≢ 32) text.now) }
{
    text.iter().position(|byte| *byte == b' ')
}

/// Cuts the text at its first blank. It goes byte by byte, which takes less for a short text than std's search does.
pub fn at_blank(text: &str) -> Option<(&str, &str)>
    ensures { option_map (λ parts. (parts.0.now, parts.1.now)) result ≡ cut_at_blank text.now }
{
    let at = blank_at(text.as_bytes())?;
    Some((&text[..at], &text[at + 1..]))
}

/// `SLOT`
pub fn read_slot(alloc: Global, text: &str) -> Result<SlotPath, LineFault>
    ensures { Gives (slot_of text.now) result }
{
    match read_slot_path(alloc, text) {
        Ok(slot) => Ok(slot),
        Err(PathFault::BadPath) => Err(LineFault::BadLine),
        Err(PathFault::NoMemory) => Err(LineFault::NoMemory),
    }
}

fn read_name(alloc: Global, text: &str) -> Result<Name, LineFault>
    ensures { Gives (name_of text.now) result }
{
    match Name::read(alloc, text) {
        Ok(name) => Ok(name),
        Err(PathFault::BadPath) => Err(LineFault::BadLine),
        Err(PathFault::NoMemory) => Err(LineFault::NoMemory),
    }
}

#[inline(always)]
fn copy_value(alloc: Global, text: &str) -> Result<ValueText, LineFault>
    ensures copied { IfOk result (λ value. value ≡ text.now) }
    ensures memory { IfErr result (λ fault. fault ≡ NoMemory) }
{
    let text = String::from_str(alloc, text)?;
    Ok(ValueText::new(text))
}

/// `SLOT VALUE`
#[inline(always)]
pub fn read_slot_and_value(alloc: Global, text: &str) -> Result<(SlotPath, ValueText), LineFault>
    ensures { Gives (slot_and_value_of text.now) result }
{
    let Some((slot, value)) = at_blank(text) else {
        return Err(LineFault::BadLine);
    };
    let slot = read_slot(alloc, slot)?;
    let value = copy_value(alloc, value)?;
    Ok((slot, value))
}

// The text behind the sign of a member.
fn behind_sign(text: &str) -> Option<&str>
    ensures { option_copied result ≡ after (codes "#") text.now }
{
    text.strip_prefix("#")
}

// `#K`
fn member_of(text: &str) -> Option<u32>
    ensures { result ≡ member_in text.now }
{
    read_member_number(behind_sign(text)?)
}

/// `SLOT #K`
pub fn read_slot_and_member(alloc: Global, text: &str) -> Result<(SlotPath, u32), LineFault>
    ensures { Gives (slot_and_member_of text.now) result }
{
    let Some((slot, member)) = at_blank(text) else {
        return Err(LineFault::BadLine);
    };
    let Some(member) = member_of(member) else {
        return Err(LineFault::BadLine);
    };
    let slot = read_slot(alloc, slot)?;
    Ok((slot, member))
}

/// `NAME SLOT`
pub fn read_name_and_slot(alloc: Global, text: &str) -> Result<(Name, SlotPath), LineFault>
    ensures { Gives (name_and_slot_of text.now) result }
{
    let Some((name, slot)) = at_blank(text) else {
        return Err(LineFault::BadLine);
    };
    let name = read_name(alloc, name)?;
    let slot = read_slot(alloc, slot)?;
    Ok((name, slot))
}
