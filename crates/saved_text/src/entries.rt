// Puts the lines of answers and overrides.
ghost use Rattle.std.specs.Prelude.{◌≡◌, ◌+◌, ◌≤◌, ◌++◌, ◌∷◌, [], codes, length, option_copied, Some};
ghost use Rattle.answers.specs.Answered.{value_of};
ghost use Rattle.answers.specs.Meaning.{answered};
ghost use Rattle.value_text.specs.Values.{IsPrinted};
ghost use Rattle.dictionary.specs.AcceptedParts.{accepted};
ghost use Rattle.dict_meaning.specs.Fits.{AnswersFit};
ghost use Rattle.dict_meaning.specs.SlotText.{IsSlot, slot_text};
ghost use Rattle.saved_text.specs.SavedText.{entries, entry_line, entry_lines, side_word as word_of_side};
ghost use Rattle.saved_text.specs.Writing.{WroteAs};

use crate::cursor::Cursor;
use crate::writing::put_line;
use answers::{Answers, Side};
use dictionary::Dictionary;
use fact_values::{Slot, Value};
use fg_io::{Failed, Sink};
use value_text::{Line, print};

/// The first word of an entry's line, with its blank.
pub fn side_word(side: Side) -> &'static str
    ensures word { result.now ≡ word_of_side side }
    ensures short { length result.now ≤ 9 }
{
    match side {
        Side::Answer => "value ",
        Side::Override => "override ",
    }
}

fn entry_at(answers: &Answers, side: Side, slot: Slot) -> Option<&Value>
    ensures { option_copied result ≡ value_of side (answered answers.now) slot }
{
    match side {
        Side::Answer => answers.value(slot),
        Side::Override => answers.override_of(slot),
    }
}

// Prints into an empty line what an entry's line has before its value.
fn print_slot(dict: &Dictionary, side: Side, slot: Slot, line: &mut Line)
    requires slot { IsSlot (accepted dict.now).tree slot }
    requires empty { line.old ≡ [] }
    ensures text { line.new ≡ word_of_side side ++ (slot_text (accepted dict.now).tree slot ++ codes " ") }
    ensures short { length line.new ≤ 150 }
{
    let _accepted = dict.source();
    line.push(side_word(side).as_bytes());
    dict.print_slot(slot, line);
    line.push(b" ");
}

// Puts the line of a slot with this value.
fn put_value<K: Sink>(
    dict: &Dictionary,
    side: Side,
    slot: Slot,
    value: &Value,
    out: &mut K,
) -> Result<(), Failed>
    requires slot { IsSlot (accepted dict.now).tree slot }
    requires listed { IsPrinted (accepted dict.now).tree.enums value.now }
    ensures { WroteAs (K.output out.old) (K.output out.new)
        (entry_line side (accepted dict.now).tree slot value.now ∷ []) result }
{
    let mut front = Line::new();
    print_slot(dict, side, slot, &mut front);
    let mut back = Line::new();
    print(value, dict.source().enums(), &mut back);
    put_line(front.bytes(), back.bytes(), out)
}

// Puts the line of a slot that has an answer, or an override.
fn put_entry<K: Sink>(
    dict: &Dictionary,
    answers: &Answers,
    side: Side,
    slot: Slot,
    out: &mut K,
) -> Result<(), Failed>
    requires { AnswersFit (accepted dict.now).tree (answered answers.now) }
    ensures { WroteAs (K.output out.old) (K.output out.new)
        (entry_lines side (accepted dict.now).tree (answered answers.now) slot) result }
{
    let _accepted = dict.source();
    match entry_at(answers, side, slot) {
        None => Ok(()),
        Some(value) => put_value(dict, side, slot, value, out),
    }
}

/// Puts the lines of all answers, or of all overrides.
pub fn put_entries<K: Sink>(
    dict: &Dictionary,
    answers: &Answers,
    side: Side,
    out: &mut K,
) -> Result<(), Failed>
    requires { AnswersFit (accepted dict.now).tree (answered answers.now) }
    ensures { WroteAs (K.output out.old) (K.output out.new)
        (entries side (accepted dict.now).tree (answered answers.now)) result }
{
    let mut cursor = Cursor::new(dict, answers);
    while let Some(slot) = cursor.next(dict, answers) {
        match put_entry(dict, answers, side, slot, out) {
            Err(failed) => return Err(failed),
            Ok(()) => {}
        }
    }
    Ok(())
}
