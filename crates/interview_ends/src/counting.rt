// Counts lines of a text.
ghost use Rattle.std.specs.Prelude.{◌≡◌, [], IfNone, IfSome, length, bytes_eq};
ghost use Rattle.script_lines.specs.Lines.{lines_of};
ghost use Rattle.interview_ends.specs.Summary.{HasNoBlank, IsBlankAt, count_of as replies_with, first_word as front, last_of};

use script_lines::cut_line;

// The place of the first blank.
fn blank_at(line: &[u8]) -> Option<usize>
    ensures found { IfSome result (IsBlankAt line.now) }
    ensures none { IfNone result (HasNoBlank line.now) }
{
    line.iter().position(|byte| *byte == b' ')
}

// What stands before the first blank.
fn first_word(line: &[u8]) -> &[u8]
    ensures { result.now ≡ front line.now }
{
    match blank_at(line) {
        None => line,
        Some(at) => &line[..at],
    }
}

fn begins_with(line: &[u8], word: &[u8]) -> bool
    ensures { result ≡ bytes_eq (front line.now) word.now }
{
    first_word(line) == word
}

/// How many lines a text has.
pub fn line_count(text: &[u8]) -> u64
    ensures { result ≡ length (lines_of text.now) }
{
    let mut count = 0u64;
    let mut rest = text;
    while !rest.is_empty() {
        let cut = cut_line(rest);
        rest = cut.1;
        count += 1;
    }
    count
}

/// How many lines of a text begin with this word.
pub fn count_of(text: &[u8], word: &[u8]) -> u64
    ensures { result ≡ replies_with word.now (lines_of text.now) }
{
    let mut count = 0u64;
    let mut rest = text;
    while !rest.is_empty() {
        let cut = cut_line(rest);
        if begins_with(cut.0, word) {
            count += 1;
        }
        rest = cut.1;
    }
    count
}

/// The last line of a text, or nothing where it has none.
pub fn last_line(text: &[u8]) -> &[u8]
    ensures { result.now ≡ last_of [] (lines_of text.now) }
{
    let mut last = &text[..0];
    let mut rest = text;
    while !rest.is_empty() {
        let cut = cut_line(rest);
        last = cut.0;
        rest = cut.1;
    }
    last
}
