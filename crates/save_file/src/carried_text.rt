// Reads the lines of a carried text, whatever the dictionary, or of a saved text over one.
ghost use Rattle.std.specs.Prelude.{◌<◌, length, option_copied};
ghost use Rattle.script_lines.specs.Lines.{HasNoNewline};
ghost use Rattle.save_file.specs.WhoseText.{GivesLines, IsOfUpTo, IsWhose, ReadsNext};
ghost use Rattle.saved_text.specs.CarriedParsing.{IsCarriedStage, stage_lines};

use crate::own_lines::judge;
use dictionary::Dictionary;
use saved_text::{CarriedRead, CarriedStage, LoadFault, end_with, is_ended, read_carried};
use script_lines::cut_line;
use std::alloc::Global;

// Takes the line of this number.
fn read_next(
    alloc: Global,
    whose: Option<&Dictionary>,
    stage: CarriedStage,
    last: u64,
    line: &[u8],
    number: u32,
) -> Result<(CarriedStage, u64), LoadFault>
    requires sound { IsCarriedStage stage }
    requires own { IsOfUpTo (option_copied whose) (stage_lines stage) last }
    requires line { HasNoNewline line.now }
    ensures { ReadsNext (option_copied whose.entry) stage line.now number result }
{
    match read_carried(alloc, stage, line, number) {
        Err(fault) => Err(fault),
        Ok(new) => match judge(alloc, whose, &new, last) {
            Err(fault) => {
                drop(new);
                Err(fault)
            }
            Ok(None) => {
                drop(new);
                Err(LoadFault::BadSaved(number))
            }
            Ok(Some(position)) => Ok((new, position)),
        },
    }
}

/// The lines of which the bytes are the carried text; of a saved text over the dictionary, where one is given.
pub fn read_lines(
    alloc: Global,
    whose: Option<&Dictionary>,
    bytes: &[u8],
) -> Result<CarriedRead, LoadFault>
    requires whose { IsWhose (option_copied whose) }
    requires short { length bytes.now < 4294967295 }
    ensures { GivesLines (option_copied whose.entry) bytes.now result }
{
    let ended = is_ended(bytes);
    let mut stage = CarriedStage::Opening;
    let mut last = 0;
    let mut number = 1;
    let mut rest = bytes;
    while !rest.is_empty() {
        let cut = cut_line(rest);
        match read_next(alloc, whose, stage, last, cut.0, number) {
            Err(fault) => return Err(fault),
            Ok((new, position)) => {
                stage = new;
                last = position;
            }
        }
        rest = cut.1;
        number += 1;
    }
    end_with(stage, ended, number)
}
