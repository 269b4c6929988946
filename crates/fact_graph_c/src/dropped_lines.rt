// Says which lines are dropped of a text that came from outside.
ghost use Rattle.std.specs.Prelude.{◌≡◌, ◌++◌, ◌∷◌, [], IfOk, map};
ghost use Rattle.fg_io.specs.Writing.{Wrote};
ghost use Rattle.save_file.specs.Resuming.{dropped_line};
ghost use Rattle.session_lines.specs.Replies.{refusal_text};
ghost use Rattle.fact_graph_c.specs.DroppedLines.{dropped_line_text, dropped_lines_text as text_of_lines, reason_text};

use crate::text::Text;
use fact_values::NoMemory;
use fg_io::{Failed, Sink, put_text};
use graph_session::Refusal;
use save_file::{Dropped, Reason};
use session_lines::print_refusal;
use std::alloc::Global;
use value_text::Line;

// Puts what `set` replies, and its newline.
fn put_refusal<K: Sink>(refusal: Refusal, out: &mut K) -> Result<(), Failed>
    ensures { Wrote (K.output out.old) (K.output out.new) (refusal_text refusal ++ 10 ∷ []) result }
{
    let mut line = Line::new();
    print_refusal(refusal, &mut line);
    line.push(b"\n");
    put_text(line.bytes(), out)
}

// Puts why a line is dropped, and its newline.
fn put_reason<K: Sink>(reason: Reason, out: &mut K) -> Result<(), Failed>
    ensures { Wrote (K.output out.old) (K.output out.new) (reason_text reason ++ 10 ∷ []) result }
{
    match reason {
        Reason::NoCollection => put_text(b"\n", out),
        Reason::Refused(refusal) => match put_text(b" ", out) {
            Err(failed) => Err(failed),
            Ok(()) => put_refusal(refusal, out),
        },
        Reason::Override => put_text(b"\n", out),
    }
}

// Puts what is said of a line.
fn put_line<K: Sink>(line: &Dropped, out: &mut K) -> Result<(), Failed>
    ensures { Wrote (K.output out.old) (K.output out.new) (dropped_line_text (dropped_line line.now) ++ 10 ∷ [])
        result }
{
    put_text(b"dropped ", out)?;
    put_text(line.key.as_bytes(), out)?;
    put_reason(line.reason, out)
}

// Goes through the lines.
fn put_lines<K: Sink>(lines: &[Dropped], out: &mut K) -> Result<(), Failed>
    ensures { Wrote (K.output out.old) (K.output out.new) (text_of_lines (map dropped_line lines.now)) result }
{
    for line in lines {
        match put_line(line, out) {
            Err(failed) => return Err(failed),
            Ok(()) => {}
        }
    }
    Ok(())
}

/// What is said of these lines.
pub fn dropped_lines_text(alloc: Global, lines: &[Dropped]) -> Result<Text, NoMemory>
    ensures { IfOk result (λ t. t.bytes.items ≡ text_of_lines (map dropped_line lines.now)) }
{
    let mut text = Text::new(alloc);
    match put_lines(lines, &mut text) {
        Ok(()) => Ok(text),
        Err(Failed) => Err(NoMemory),
    }
}
