// Writes lines, and tells how the script goes on behind them.
ghost use Rattle.std.specs.Prelude.{◌≡◌, ◌≤◌, ◌∷◌, [], ℕ, List, length};
ghost use Rattle.graph_session.specs.Rules.{rules};
ghost use Rattle.graph_session.specs.Run.{is_memory};
ghost use Rattle.graph_session.specs.SessionView.{session_state};
ghost use Rattle.session_lines.specs.Answering.{EndsOrWrites, WrittenAs, progress_of};
ghost use Rattle.session_lines.specs.Marks.{marked};
ghost use Rattle.session_lines.specs.Replies.{line_with, refusal_text, reply_text};
ghost use Rattle.session_lines.specs.Writing.{WroteAs};

use crate::mark::{PartyMark, print_mark};
use crate::progress::Progress;
use crate::reply::{print_refusal, print_reply};
use dictionary::FactEngine;
use fg_io::{Failed, Sink, put_piece};
use graph_session::{Refusal, Reply, Session, is_want_of_memory};
use value_text::Line;

/// How a script goes on behind a text that was put: on where all of it was taken, and else it ends.
pub fn as_progress(put: Result<(), Failed>) -> Progress
    ensures { result ≡ progress_of put }
{
    match put {
        Ok(()) => Progress::More,
        Err(Failed) => Progress::Unwritten,
    }
}

// Puts a line that has its newline, as one piece.
fn put_ended<K: Sink>(text: &[u8], out: &mut K) -> Result<(), Failed>
    ensures written { (line : List ℕ) → text.now ≡ line_with line → WroteAs (K.output out.old) (K.output out.new)
        (line ∷ []) result }
    ensures later { (K.output out.old).faults ≤ (K.output out.new).faults }
{
    put_piece(text, out)
}

/// Writes a line with its newline, and says how the script goes on behind it.
pub fn write_ended<K: Sink>(text: &[u8], out: &mut K) -> Progress
    ensures written { (line : List ℕ) → text.now ≡ line_with line → WrittenAs (K.output out.old) (K.output out.new)
        (line ∷ []) result }
    ensures later { (K.output out.old).faults ≤ (K.output out.new).faults }
{
    let put = put_ended(text, out);
    as_progress(put)
}

/// Puts a printed text as a line: with its newline, as one piece.
pub fn put_printed<K: Sink>(text: &mut Line, out: &mut K) -> Result<(), Failed>
    requires { length text.old ≤ 1095 }
    ensures { WroteAs (K.output out.old) (K.output out.new) (text.old ∷ []) result }
{
    text.push(b"\n");
    put_piece(text.bytes(), out)
}

/// The same behind a mark.
#[inline(always)]
pub fn put_line<K: Sink>(mark: PartyMark, text: &mut Line, out: &mut K) -> Result<(), Failed>
    requires { length text.old ≤ 1050 }
    ensures { WroteAs (K.output out.old) (K.output out.new) (marked mark text.old ∷ []) result }
{
    match mark {
        PartyMark::Unmarked => put_printed(text, out),
        PartyMark::Party(_) => {
            let mut line = Line::new();
            print_mark(mark, &mut line);
            line.push(text.bytes());
            put_printed(&mut line, out)
        }
    }
}

/// Writes a printed text as a line, and says how the script goes on behind it.
#[inline(always)]
pub fn write_line<K: Sink>(mark: PartyMark, text: &mut Line, out: &mut K) -> Progress
    requires { length text.old ≤ 1050 }
    ensures written { WrittenAs (K.output out.old) (K.output out.new) (marked mark text.old ∷ []) result }
    ensures later { (K.output out.old).faults ≤ (K.output out.new).faults }
{
    let put = put_line(mark, text, out);
    as_progress(put)
}

// Writes what the session says, as a line that is printed.
fn write_printed<E: FactEngine, K: Sink>(
    session: &Session<E>,
    mark: PartyMark,
    reply: Reply,
    out: &mut K,
) -> Progress
    ensures written { WrittenAs (K.output out.old) (K.output out.new)
        (marked mark (reply_text (rules session.now.dict) (session_state session.now) reply) ∷ []) result }
    ensures later { (K.output out.old).faults ≤ (K.output out.new).faults }
{
    let mut text = Line::new();
    print_reply(session, reply, &mut text);
    write_line(mark, &mut text, out)
}

/// Writes what the session says. That a change was made is said to the person of a session without a line being filled: most lines of
/// a script are changes.
pub fn write_reply<E: FactEngine, K: Sink>(
    session: &Session<E>,
    mark: PartyMark,
    reply: Reply,
    out: &mut K,
) -> Progress
    ensures written { WrittenAs (K.output out.old) (K.output out.new)
        (marked mark (reply_text (rules session.now.dict) (session_state session.now) reply) ∷ []) result }
    ensures later { (K.output out.old).faults ≤ (K.output out.new).faults }
{
    match (mark, reply) {
        (PartyMark::Unmarked, Reply::Done) => write_ended(b"ok\n", out),
        _ => write_printed(session, mark, reply, out),
    }
}

/// Writes why a command is refused.
pub fn write_refusal<K: Sink>(mark: PartyMark, refusal: Refusal, out: &mut K) -> Progress
    ensures written { EndsOrWrites (is_memory refusal) (K.output out.old) (K.output out.new)
        (marked mark (refusal_text refusal) ∷ []) result }
    ensures later { (K.output out.old).faults ≤ (K.output out.new).faults }
{
    if is_want_of_memory(refusal) {
        return Progress::OutOfMemory;
    }
    let mut text = Line::new();
    print_refusal(refusal, &mut text);
    write_line(mark, &mut text, out)
}
