// Tells which lines of a carried text are dropped.
ghost use Rattle.std.specs.Prelude.{◌≡◌, ◌≢◌, All, ◌<◌, ◌++◌, ◌∷◌, [], List, ℕ, IfNone, IfSome, length, ◌≤◌};
ghost use Rattle.fact_paths.specs.Cuts.{IsFirstAt};
ghost use Rattle.fg_io.specs.Outside.{HasCause};
ghost use Rattle.fg_io.specs.Puts.{PutAs};
ghost use Rattle.fg_io.specs.Writing.{Wrote};
ghost use Rattle.script_lines.specs.Lines.{lines_of};
ghost use Rattle.saved_text.specs.Writing.{WroteAs, pieces_of};
ghost use Rattle.save_file.specs.Dropped.{AreDropped, IsDroppedText, behind_word as bytes_behind_word, is_next as is_next_of, past as past_of, said, said_at, said_if, said_of, shortened as shortened_to, word_of};

use fg_io::{Failed, Sink, put_piece};
use script_lines::cut_line;
use value_text::Line;

// The place of the first blank.
fn blank_at(text: &[u8]) -> Option<usize>
    ensures found { IfSome result (IsFirstAt 32 text.now) }
    ensures none { IfNone result (All (λ b. b ≢ 32) text.now) }
{
    text.iter().position(|byte| *byte == b' ')
}

// The first word, and what stands behind its blank.
fn cut_word(text: &[u8]) -> (&[u8], &[u8])
    ensures word { result.0.now ≡ word_of text.now }
    ensures behind { result.1.now ≡ bytes_behind_word text.now }
{
    match blank_at(text) {
        None => (text, &[]),
        Some(at) => (&text[..at], &text[at + 1..]),
    }
}

// As much of a word as a line has room for.
fn shortened(word: &[u8]) -> &[u8]
    ensures text { result.now ≡ shortened_to word.now }
    ensures short { length result.now ≤ 500 }
{
    &word[..word.len().min(500)]
}

// Puts what is said of a line, of its first two words.
fn put_words<K: Sink>(kind: &[u8], name: &[u8], out: &mut K) -> Result<(), Failed>
    requires kind { length kind.now ≤ 500 }
    requires name { length name.now ≤ 500 }
    ensures { WroteAs (K.output out.old) (K.output out.new) (said kind.now name.now ∷ []) result }
{
    let mut piece = Line::new();
    piece.push(b"dropped ");
    piece.push(kind);
    piece.push(b" ");
    piece.push(name);
    piece.push(b"\n");
    put_piece(piece.bytes(), out)
}

// The same of a line. Those of a carried text have at most 150 bytes together.
fn put_line<K: Sink>(line: &[u8], out: &mut K) -> Result<(), Failed>
    ensures { WroteAs (K.output out.old) (K.output out.new) (said_of line.now ∷ []) result }
{
    let kind = cut_word(line);
    let name = cut_word(kind.1);
    put_words(shortened(kind.0), shortened(name.0), out)
}

// Whether this number is the next of those that rise.
fn is_next(number: u32, dropped: &[u32]) -> bool
    ensures { result ≡ is_next_of number dropped.now }
{
    match dropped.first() {
        None => false,
        Some(next) => *next == number,
    }
}

// Those behind it.
fn past(number: u32, dropped: &[u32]) -> &[u32]
    ensures { result.now ≡ past_of number dropped.now }
{
    if is_next(number, dropped) {
        &dropped[1..]
    } else {
        dropped
    }
}

// Puts what is said of a line, where it has the next number.
fn put_if_next<K: Sink>(
    number: u32,
    dropped: &[u32],
    line: &[u8],
    out: &mut K,
) -> Result<(), Failed>
    ensures { WroteAs (K.output out.old) (K.output out.new) (said_if (is_next_of number dropped.now) line.now)
        result }
{
    if is_next(number, dropped) {
        put_line(line, out)
    } else {
        Ok(())
    }
}

// Goes through the lines.
fn put_lines<K: Sink>(bytes: &[u8], dropped: &[u32], out: &mut K) -> Result<(), Failed>
    requires { length bytes.now < 4294967295 }
    ensures { WroteAs (K.output out.old) (K.output out.new) (said_at 1 dropped.now (lines_of bytes.now)) result }
{
    let mut rest = bytes;
    let mut left = dropped;
    let mut number = 1;
    while !rest.is_empty() {
        let cut = cut_line(rest);
        match put_if_next(number, left, cut.0, out) {
            Err(failed) => return Err(failed),
            Ok(()) => {}
        }
        left = past(number, left);
        rest = cut.1;
        number += 1;
    }
    Ok(())
}

/// Puts a line for each line of a carried text that carrying dropped, as `dropped value /n`, of the text's bytes and of the numbers
/// that `carry` gave. A line with its newline is one piece. After a failure a part of the text was taken, and nothing is put any more.
/// It takes no memory.
pub fn put_dropped<K: Sink>(bytes: &[u8], dropped: &[u32], out: &mut K) -> Result<(), Failed>
    requires { length bytes.now < 4294967295 }
    ensures text { (text : List ℕ) → IsDroppedText bytes.now dropped.now text → Wrote (K.output out.old) (K.output out.new) text result }
    ensures cause { HasCause (K.output out.old).faults (K.output out.new).faults result }
    ensures puts { (lines : List (List ℕ)) → AreDropped bytes.now dropped.now lines → PutAs (K.output out.old) (K.output out.new)
        (pieces_of lines) result }
{
    put_lines(bytes, dropped, out)
}
