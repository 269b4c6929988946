// How far a carried text was read: takes its next line, and says what a whole text gives.
ghost use Rattle.std.specs.Prelude.{◌≡◌, ◌↔◌, ◌++◌, ◌∷◌, [], List, ℕ, IsTrue};
ghost use Rattle.script_lines.specs.Lines.{HasNoNewline};
ghost use Rattle.saved_text.specs.CarriedParsing.{EndsCarried, IsCarriedStage, IsRead, JudgesCarried, ReadsCarried, TakesText, new_or_fault};
ghost use Rattle.saved_text.specs.declared.carried_stage.CarriedStage.TheVariants.{Lines, Number, Opening};

use crate::carried_line::read_line;
use crate::carried_read::{CarriedRead, take_line as add_line};
use crate::entry_keys::EntryKeys;
use crate::fault::LoadFault;
use crate::reading::{behind, is_word, read_next};
use script_lines::LineFault;
use std::alloc::Global;

/// The most bytes of a line, without its newline.
const MOST_BYTES: usize = 4_096;

/// What was read, and so what may come next.
#[derive(Drop)]
pub enum CarriedStage {
    Opening,
    Number,
    Lines(CarriedRead),
    Whole(CarriedRead),
}

// `saved 1`
fn take_opening(line: &str) -> Result<CarriedStage, LineFault>
    ensures { JudgesCarried Opening line.now result }
{
    if is_word(line, "saved 1") {
        Ok(CarriedStage::Number)
    } else {
        Err(LineFault::BadLine)
    }
}

// `next K`
fn take_number(alloc: Global, line: &str) -> Result<CarriedStage, LineFault>
    ensures { JudgesCarried Number line.now result }
{
    let Some(digits) = behind("next ", line) else {
        return Err(LineFault::BadLine);
    };
    let Some(next) = read_next(digits) else {
        return Err(LineFault::BadLine);
    };
    Ok(CarriedStage::Lines(CarriedRead {
        next,
        lines: Vec::new(alloc),
        keys: EntryKeys::new(alloc),
        rank: 0,
    }))
}

// A line of a list or of an entry.
fn take_text(alloc: Global, read: &mut CarriedRead, line: &str) -> Result<(), LineFault>
    requires sound { IsRead read.old }
    requires line { HasNoNewline line.now }
    ensures { TakesText read.old line.now (new_or_fault read.new result) }
{
    if line.len() > MOST_BYTES {
        return Err(LineFault::BadLine);
    }
    match read_line(alloc, line) {
        Err(fault) => Err(fault),
        Ok(line) => add_line(alloc, read, line),
    }
}

// A line behind the first two.
fn take_later(alloc: Global, read: CarriedRead, line: &str) -> Result<CarriedStage, LineFault>
    requires sound { IsRead read }
    requires line { HasNoNewline line.now }
    ensures { JudgesCarried (Lines read) line.now result }
{
    if is_word(line, "end") {
        return Ok(CarriedStage::Whole(read));
    }
    let mut read = read;
    match take_text(alloc, &mut read, line) {
        Err(fault) => {
            drop(read);
            Err(fault)
        }
        Ok(()) => Ok(CarriedStage::Lines(read)),
    }
}

fn take_line(alloc: Global, stage: CarriedStage, line: &str) -> Result<CarriedStage, LineFault>
    requires sound { IsCarriedStage stage }
    requires line { HasNoNewline line.now }
    ensures { JudgesCarried stage line.now result }
{
    match stage {
        CarriedStage::Opening => take_opening(line),
        CarriedStage::Number => take_number(alloc, line),
        CarriedStage::Lines(read) => take_later(alloc, read, line),
        CarriedStage::Whole(_) => Err(LineFault::BadLine),
    }
}

/// Takes the line of this number.
pub fn read_carried(
    alloc: Global,
    stage: CarriedStage,
    line: &[u8],
    number: u32,
) -> Result<CarriedStage, LoadFault>
    requires sound { IsCarriedStage stage }
    requires line { HasNoNewline line.now }
    ensures { ReadsCarried stage line.now number result }
{
    let Ok(text) = str::from_utf8(line) else {
        drop(stage);
        return Err(LoadFault::BadSaved(number));
    };
    match take_line(alloc, stage, text) {
        Ok(new) => Ok(new),
        Err(LineFault::BadLine) => Err(LoadFault::BadSaved(number)),
        Err(LineFault::NoMemory) => Err(LoadFault::NoMemory),
    }
}

/// Whether the last byte is a newline.
pub fn is_ended(bytes: &[u8]) -> bool
    ensures { IsTrue result ↔ ((front : List ℕ) × (bytes.now ≡ front ++ 10 ∷ [])) }
{
    bytes.ends_with(b"\n")
}

/// The lines of a whole text, of which `ended` says whether its last line has its newline.
pub fn end_with(stage: CarriedStage, ended: bool, number: u32) -> Result<CarriedRead, LoadFault>
    ensures { EndsCarried stage ended number result }
{
    match stage {
        CarriedStage::Opening => Err(LoadFault::BadSaved(number)),
        CarriedStage::Number => Err(LoadFault::BadSaved(number)),
        CarriedStage::Lines(_) => Err(LoadFault::BadSaved(number)),
        CarriedStage::Whole(read) => {
            if ended {
                Ok(read)
            } else {
                Err(LoadFault::BadSaved(number))
            }
        }
    }
}
