// Writes the texts that end an interview.
ghost use Rattle.std.specs.Prelude.{◌≡◌, [], ◌∷◌, List, ℕ};
ghost use Rattle.session_lines.specs.Replies.{line_with};
ghost use Rattle.session_lines.specs.Writing.{WroteAs, pieces_of};
ghost use Rattle.interview_ends.specs.LastLines.{PutAtEnd, PutLinesAtEnd};
ghost use Rattle.interview_ends.specs.Summary.{texts_in};
ghost use Rattle.interview_ends.specs.StepEnds.{EndedBy};
ghost use Rattle.interview_ends.specs.FaultLines.{fault_line, saved_refused_line};
ghost use Rattle.script_runs.specs.declared.status.Status.TheVariants.{DictionaryRefused, SavedRefused};

use crate::fault_line::{print_fault, print_saved_refused};
use dictionary::DictFault;
use fg_io::{Failed, Sink, put_all, put_piece};
use script_runs::Status;
use value_text::Line;

/// Writes a text that ends the interview with this status, as one piece.
pub fn end_by<K: Sink>(out: &mut K, text: &[u8], status: Status) -> Status
    ensures text { EndedBy (K.output out.old) (K.output out.new) text.now status result }
    ensures puts { PutAtEnd (K.output out.old) (K.output out.new) text.now status result }
{
    match put_all(out, text) {
        Ok(()) => status,
        Err(Failed) => Status::WriteFault,
    }
}

// Puts a line that has its newline, as one piece.
fn put_ended<K: Sink>(text: &[u8], out: &mut K) -> Result<(), Failed>
    ensures { (line : List ℕ) → text.now ≡ line_with line → WroteAs (K.output out.old) (K.output out.new) (line ∷ []) result }
{
    put_piece(text, out)
}

// Puts lines that have their newlines, each as one piece.
fn put_lines<K: Sink>(texts: &[Vec<u8>], out: &mut K) -> Result<(), Failed>
    ensures { (lines : List (List ℕ)) → texts_in texts.now ≡ pieces_of lines → WroteAs (K.output out.old) (K.output out.new)
        lines result }
{
    for text in texts {
        match put_ended(text.as_slice(), out) {
            Err(failed) => return Err(failed),
            Ok(()) => {}
        }
    }
    Ok(())
}

/// Writes lines that have their newlines, which end the interview with this status, each as one piece.
pub fn end_by_lines<K: Sink>(out: &mut K, texts: &[Vec<u8>], status: Status) -> Status
    ensures { (lines : List (List ℕ)) → texts_in texts.now ≡ pieces_of lines → PutLinesAtEnd (K.output out.old) (K.output out.new)
        lines status result }
{
    match put_lines(texts, out) {
        Ok(()) => status,
        Err(Failed) => Status::WriteFault,
    }
}

/// Writes the line of a dictionary's first fault, which ends the interview.
pub fn end_by_fault<K: Sink>(out: &mut K, fault: DictFault) -> Status
    ensures text { EndedBy (K.output out.old) (K.output out.new) (fault_line fault) DictionaryRefused result }
    ensures puts { PutAtEnd (K.output out.old) (K.output out.new) (fault_line fault) DictionaryRefused result }
{
    let mut line = Line::new();
    print_fault(fault, &mut line);
    end_by(out, line.bytes(), Status::DictionaryRefused)
}

/// Writes the line at which a saved text is refused, which ends the interview.
pub fn end_by_refused_line<K: Sink>(out: &mut K, number: u32) -> Status
    ensures text { EndedBy (K.output out.old) (K.output out.new) (saved_refused_line number) SavedRefused result }
    ensures puts { PutAtEnd (K.output out.old) (K.output out.new) (saved_refused_line number) SavedRefused result }
{
    let mut line = Line::new();
    print_saved_refused(number, &mut line);
    end_by(out, line.bytes(), Status::SavedRefused)
}
