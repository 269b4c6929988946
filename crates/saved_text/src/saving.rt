// Saves the answers of a session.
ghost use Rattle.std.specs.Prelude.{◌≡◌, ◌∷◌, [], List, ℕ, OnOk};
ghost use Rattle.answers.specs.Meaning.{answered};
ghost use Rattle.fg_io.specs.Outside.{HasCause};
ghost use Rattle.fg_io.specs.Puts.{PutAs};
ghost use Rattle.fg_io.specs.Sent.{Sent};
ghost use Rattle.dictionary.specs.AcceptedParts.{accepted};
ghost use Rattle.dict_meaning.specs.Fits.{AnswersFit};
ghost use Rattle.saved_text.specs.SavedText.{next_line, saved, saved_lines};
ghost use Rattle.saved_text.specs.Writing.{WroteAs, pieces_of};

use crate::entries::put_entries;
use crate::lists::put_lists;
use crate::writing::put_line;
use answers::{Answers, Side};
use dictionary::Dictionary;
use fg_io::{Failed, Sink};
use itoa::Buffer;
use value_text::Line;

// Puts the line of the next member's number.
#[tactic(auto, using(value_text::proofs::Decimals::decimal_of_member))]
fn put_next<K: Sink>(next: u32, out: &mut K) -> Result<(), Failed>
    ensures { WroteAs (K.output out.old) (K.output out.new) (next_line next ∷ []) result }
{
    let mut line = Line::new();
    line.push(b"next ");
    let mut buffer = Buffer::new();
    line.push(buffer.format(next).as_bytes());
    put_line(line.bytes(), b"", out)
}

// Puts the lines of the saved text.
fn put_saved<K: Sink>(dict: &Dictionary, answers: &Answers, out: &mut K) -> Result<(), Failed>
    requires { AnswersFit (accepted dict.now).tree (answered answers.now) }
    ensures { WroteAs (K.output out.old) (K.output out.new)
        (saved_lines (accepted dict.now).tree (answered answers.now)) result }
{
    put_line(b"saved 1", b"", out)?;
    put_next(answers.next_number(), out)?;
    put_lists(dict, answers, out)?;
    put_entries(dict, answers, Side::Answer, out)?;
    put_entries(dict, answers, Side::Override, out)?;
    put_line(b"end", b"", out)
}

/// Puts the saved text of answers that fit the dictionary, line after line, each with its newline as one piece. After a failure a
/// part of the text was taken, and nothing is put any more. It takes no memory.
pub fn save<K: Sink>(dict: &Dictionary, answers: &Answers, out: &mut K) -> Result<(), Failed>
    requires { AnswersFit (accepted dict.now).tree (answered answers.now) }
    ensures whole { OnOk result (Sent (K.output out.old).taken (K.output out.new).taken
        (saved (accepted dict.now).tree (answered answers.now)) []) }
    ensures part { (rest : List ℕ) × Sent (K.output out.old).taken (K.output out.new).taken
        (saved (accepted dict.now).tree (answered answers.now)) rest }
    ensures cause { HasCause (K.output out.old).faults (K.output out.new).faults result }
    ensures puts { PutAs (K.output out.old) (K.output out.new)
        (pieces_of (saved_lines (accepted dict.now).tree (answered answers.now))) result }
{
    put_saved(dict, answers, out)
}
