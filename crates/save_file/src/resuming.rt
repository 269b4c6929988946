// Goes on from a saved text that came from outside.
ghost use Rattle.std.specs.Prelude.{◌≡◌, ◌+◌, ◌<◌, IfErr, IfOk, filter, length, map, not};
ghost use Rattle.answers.specs.Meaning.{answered};
ghost use Rattle.text_checks.specs.Tables.{named_checks};
ghost use Rattle.dict_meaning.specs.Fits.{AnswersFit};
ghost use Rattle.graph_session.specs.Refusals.{SameChecks};
ghost use Rattle.graph_session.specs.Rules.{rules, tree_of};
ghost use Rattle.saved_text.specs.CarriedParsing.{line_of, text_of};
ghost use Rattle.saved_text.specs.CarriedText.{IsCarried};
ghost use Rattle.save_file.specs.Carrying.{AreOfKept, RefusesCarried};
ghost use Rattle.save_file.specs.Resuming.{IsResume, IsResumeOf, dropped_line, overrides, without_overrides};
ghost use Rattle.saved_text.specs.declared.fault.LoadFault.TheVariants.{NoMemory};

use crate::carried_text::read_lines;
use crate::carrying::carry_lines;
use crate::dropped_lines::lines_dropped;
use crate::reason::Dropped;
use answers::{Answers, Side};
use dictionary::Dictionary;
use saved_text::{CarriedRead, LoadFault, TextLine};
use std::alloc::Global;
use text_checks::CheckTable;

/// What is taken of a text that came from outside.
#[derive(Drop)]
pub struct Resumed {
    /// The answers of the lines that are kept. No override stands.
    pub answers: Answers,
    /// The others, in their order.
    pub dropped: Vec<Dropped>,
}

fn is_override(line: &TextLine) -> bool
    ensures { result ≡ overrides (line_of line.now) }
{
    match line {
        TextLine::Collection(_) => false,
        TextLine::Entry(entry) => match entry.side {
            Side::Answer => false,
            Side::Override => true,
        },
    }
}

// Takes the overrides away.
fn leave_overrides(read: &mut CarriedRead)
    ensures next { read.new.next ≡ read.old.next }
    ensures lines { read.new.lines.items ≡ filter (λ l. not (overrides (line_of l))) read.old.lines.items }
{
    read.lines.retain(|line| !is_override(line));
}

// The answers of the lines without the overrides, which are taken away.
fn answers_of(
    alloc: Global,
    dict: &Dictionary,
    checks: &CheckTable,
    read: &mut CarriedRead,
) -> Result<Answers, LoadFault>
    requires same_checks { SameChecks (rules dict.now) (named_checks checks.now) }
    requires text { IsCarried (text_of read.old) }
    requires few { length read.old.lines.items + 3 < 4294967296 }
    ensures kept { IfOk result (λ a. AreOfKept (rules dict.now) (without_overrides (text_of read.old)) (answered a)) }
    ensures fit { IfOk result (λ a. AnswersFit (tree_of (rules dict.now)) (answered a)) }
    ensures memory { IfErr result (λ fault. fault ≡ NoMemory) }
{
    leave_overrides(read);
    match carry_lines(alloc, dict, checks, read) {
        Err(fault) => Err(fault),
        Ok(carried) => Ok(carried.answers),
    }
}

// Resumes from lines that make a carried text.
fn resume_lines(
    alloc: Global,
    dict: &Dictionary,
    checks: &CheckTable,
    read: &mut CarriedRead,
) -> Result<Resumed, LoadFault>
    requires same_checks { SameChecks (rules dict.now) (named_checks checks.now) }
    requires text { IsCarried (text_of read.old) }
    requires few { length read.old.lines.items + 3 < 4294967296 }
    ensures resumed { IfOk result (λ x. IsResumeOf (rules dict.now) (text_of read.old) (answered x.answers)
        (map dropped_line x.dropped.items)) }
    ensures memory { IfErr result (λ fault. fault ≡ NoMemory) }
{
    match lines_dropped(alloc, dict, checks, read) {
        Err(fault) => Err(fault),
        Ok(dropped) => match answers_of(alloc, dict, checks, read) {
            Err(fault) => {
                drop(dropped);
                Err(fault)
            }
            Ok(answers) => Ok(Resumed { answers, dropped }),
        },
    }
}

/// What may be taken of a saved text that came from outside: the answers that `set` would take, over any dictionary as `carry`
/// has it, and no override. Each line that is dropped is listed with its reason.
pub fn resume(
    alloc: Global,
    dict: &Dictionary,
    checks: &CheckTable,
    bytes: &[u8],
) -> Result<Resumed, LoadFault>
    requires same_checks { SameChecks (rules dict.now) (named_checks checks.now) }
    requires short { length bytes.now < 4294967295 }
    ensures resumed { IfOk result (λ x. IsResume (rules dict.now) bytes.now (answered x.answers)
        (map dropped_line x.dropped.items)) }
    ensures refused { IfErr result (RefusesCarried bytes.now) }
{
    match read_lines(alloc, None, bytes) {
        Err(fault) => Err(fault),
        Ok(read) => {
            let mut read = read;
            resume_lines(alloc, dict, checks, &mut read)
        }
    }
}
