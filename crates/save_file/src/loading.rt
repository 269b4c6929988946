// Loads the answers of a saved text.
ghost use Rattle.std.specs.Prelude.{◌≡◌, ◌<◌, IfErr, IfOk, length};
ghost use Rattle.answers.specs.Answered.{Answered};
ghost use Rattle.answers.specs.Meaning.{answered};
ghost use Rattle.dictionary.specs.AcceptedParts.{accepted};
ghost use Rattle.dict_meaning.specs.Fits.{AnswersFit};
ghost use Rattle.saved_text.specs.CarriedParsing.{lines_of, text_of};
ghost use Rattle.saved_text.specs.CarriedText.{IsCarried, carried};
ghost use Rattle.save_file.specs.Loading.{RefusesText};
ghost use Rattle.save_file.specs.OwnLines.{AreOwn};
ghost use Rattle.saved_text.specs.SavedText.{saved};
ghost use Rattle.saved_text.specs.declared.fault.LoadFault.TheVariants.{NoMemory};

use crate::carried_text::read_lines;
use crate::entering::enter_all;
use crate::opening::open_kept;
use answers::Answers;
use dictionary::Dictionary;
use saved_text::{CarriedRead, LoadFault};
use std::alloc::Global;

// The answers that lines of a saved text give.
fn answers_of(alloc: Global, dict: &Dictionary, read: &CarriedRead) -> Result<Answers, LoadFault>
    requires text { IsCarried (text_of read.now) }
    requires own { AreOwn (accepted dict.now).tree (lines_of read.now) }
    ensures fit { IfOk result (λ b. AnswersFit (accepted dict.now).tree (answered b)) }
    ensures saved { IfOk result (λ b. carried (text_of read.now) ≡ saved (accepted dict.now).tree (answered b)) }
    ensures memory { IfErr result (λ fault. fault ≡ NoMemory) }
{
    let _accepted = dict.source();
    let _enums = dict.source().enums().len();
    match open_kept(alloc, dict, read) {
        Err(fault) => Err(fault),
        Ok(answers) => {
            let mut answers = answers;
            match enter_all(alloc, dict, read.lines.as_slice(), &mut answers) {
                Err(fault) => {
                    drop(answers);
                    Err(fault)
                }
                Ok(()) => Ok(answers),
            }
        }
    }
}

/// The answers of which the bytes are the saved text over the dictionary; of other bytes nothing is kept. Limits and checks
/// aren't judged.
pub fn load(alloc: Global, dict: &Dictionary, bytes: &[u8]) -> Result<Answers, LoadFault>
    requires { length bytes.now < 4294967295 }
    ensures loaded { IfOk result (λ b. AnswersFit (accepted dict.now).tree (answered b)
        × (bytes.now ≡ saved (accepted dict.now).tree (answered b))) }
    ensures only { (a : Answered) → AnswersFit (accepted dict.now).tree a → bytes.now ≡ saved (accepted dict.now).tree a
        → IfOk result (λ b. answered b ≡ a) }
    ensures refused { IfErr result (RefusesText (accepted dict.now).tree bytes.now) }
{
    let _accepted = dict.source();
    let _enums = dict.source().enums().len();
    match read_lines(alloc, Some(dict), bytes) {
        Err(fault) => Err(fault),
        Ok(read) => answers_of(alloc, dict, &read),
    }
}
