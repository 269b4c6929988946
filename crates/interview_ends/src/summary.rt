// Writes the summary of a load.
ghost use Rattle.std.specs.Prelude.{◌≡◌, ◌++◌, ◌∷◌, [], length, IfOk, OnOk};
ghost use Rattle.script_lines.specs.Lines.{lines_of};
ghost use Rattle.session_lines.specs.Replies.{line_with};
ghost use Rattle.session_lines.specs.Writing.{pieces_of};
ghost use Rattle.interview_ends.specs.Summary.{counts_line, gen_line, last_reply_line, size_line, summary as summary_lines, texts_in};

use crate::counting::{count_of, last_line};
use fact_values::NoMemory;
use session_lines::print_numbered;
use std::alloc::Global;
use value_text::Line;

fn print_gen(n: u32, line: &mut Line)
    requires { line.old ≡ [] }
    ensures { line.new ≡ line_with (gen_line n) }
{
    print_numbered("gen ", n as u64, line);
    line.push(b"\n");
}

fn print_size(facts: u32, nodes: u32, lines: u64, line: &mut Line)
    requires { line.old ≡ [] }
    ensures { line.new ≡ line_with (size_line facts nodes lines) }
{
    print_numbered("facts ", facts as u64, line);
    print_numbered(" nodes ", nodes as u64, line);
    print_numbered(" lines ", lines, line);
    line.push(b"\n");
}

// By the first words of the replies, which stand one behind the other.
fn print_counts(replies: &[u8], line: &mut Line)
    requires { line.old ≡ [] }
    ensures { line.new ≡ line_with (counts_line (lines_of replies.now)) }
{
    print_numbered("complete ", count_of(replies, b"complete"), line);
    print_numbered(" placeholder ", count_of(replies, b"placeholder"), line);
    print_numbered(" incomplete ", count_of(replies, b"incomplete"), line);
    print_numbered(" fault ", count_of(replies, b"fault"), line);
    print_numbered(" refused ", count_of(replies, b"refused"), line);
    line.push(b"\n");
}

// Prints the line of the last reply behind nothing.
fn push_last(replies: &[u8], text: &mut Vec<u8>) -> Result<(), NoMemory>
    requires { text.old.items ≡ [] }
    ensures { OnOk result (text.new.items ≡ line_with (last_reply_line (lines_of replies.now))) }
{
    text.extend_from_slice(b"last ")?;
    text.extend_from_slice(last_line(replies))?;
    text.push(b'\n')?;
    Ok(())
}

// Adds a line to others.
fn add(alloc: Global, line: &[u8], lines: &mut Vec<Vec<u8>>) -> Result<(), NoMemory>
    ensures { OnOk result (texts_in lines.new.items ≡ texts_in lines.old.items ++ line.now ∷ []) }
{
    let line = line.to_vec(alloc)?;
    lines.push(line)?;
    Ok(())
}

// Adds the three lines in front of the last.
fn add_front(
    alloc: Global,
    n: u32,
    facts: u32,
    nodes: u32,
    count: u64,
    replies: &[u8],
    lines: &mut Vec<Vec<u8>>,
) -> Result<(), NoMemory>
    requires { lines.old.items ≡ [] }
    ensures { OnOk result (texts_in lines.new.items ≡ line_with (gen_line n) ∷ line_with (size_line facts nodes count)
        ∷ line_with (counts_line (lines_of replies.now)) ∷ []) }
{
    let mut line = Line::new();
    print_gen(n, &mut line);
    add(alloc, line.bytes(), lines)?;
    let mut line = Line::new();
    print_size(facts, nodes, count, &mut line);
    add(alloc, line.bytes(), lines)?;
    let mut line = Line::new();
    print_counts(replies, &mut line);
    add(alloc, line.bytes(), lines)?;
    Ok(())
}

// Adds the last.
fn add_last(alloc: Global, replies: &[u8], lines: &mut Vec<Vec<u8>>) -> Result<(), NoMemory>
    ensures { OnOk result (texts_in lines.new.items ≡ texts_in lines.old.items
        ++ line_with (last_reply_line (lines_of replies.now)) ∷ []) }
{
    let mut text = Vec::new(alloc);
    push_last(replies, &mut text)?;
    lines.push(text)?;
    Ok(())
}

/// The summary of a load with `n` sums, line by line, each with its newline: how large its dictionary and its script are, and what
/// was replied, one reply behind the other.
pub fn summary(
    alloc: Global,
    n: u32,
    facts: u32,
    nodes: u32,
    count: u64,
    replies: &[u8],
) -> Result<Vec<Vec<u8>>, NoMemory>
    ensures { IfOk result (λ lines. texts_in lines.items ≡ pieces_of (summary_lines n facts nodes count (lines_of replies.now))) }
{
    let mut lines = Vec::new(alloc);
    add_front(alloc, n, facts, nodes, count, replies, &mut lines)?;
    add_last(alloc, replies, &mut lines)?;
    Ok(lines)
}
