//! Tests of `script_lines`: of calls. What lines are read as is stored cases.

use script_lines::{Lines, Ready, ValueText, lines_of_pieces};
use std::alloc::Global;
use std::test::Fail;

// The script has a line that ends in a byte 13, an empty line, and one that nothing ends.
fn pieces_of(alloc: Global, size: usize) -> Option<Vec<&'static [u8]>> {
    let mut pieces = Vec::new(alloc);
    if size > 0 {
        for piece in b"set /a 5\r\n\nget /a".chunks(size) {
            pieces.push(piece).ok()?;
        }
    }
    Some(pieces)
}

fn is_line(lines: &[Option<Vec<u8>>], place: usize, wanted: &str) -> bool {
    match lines.get(place) {
        Some(line) => is_whole(line, wanted),
        None => false,
    }
}

fn is_whole(line: &Option<Vec<u8>>, wanted: &str) -> bool {
    match line {
        Some(line) => line.as_slice() == wanted.as_bytes(),
        None => false,
    }
}

fn are_lines(lines: &[Option<Vec<u8>>]) -> bool {
    lines.len() == 3
        && is_line(lines, 0, "set /a 5\r")
        && is_line(lines, 1, "")
        && is_line(lines, 2, "get /a")
}

fn is_cut(alloc: Global, pieces: &[&[u8]]) -> bool {
    match lines_of_pieces(alloc, pieces) {
        Ok(lines) => are_lines(lines.as_slice()),
        Err(_) => false,
    }
}

// Whether a script that comes in pieces of this size is cut into its lines.
fn is_cut_in(alloc: Global, size: usize) -> bool {
    match pieces_of(alloc, size) {
        Some(pieces) => is_cut(alloc, pieces.as_slice()),
        None => false,
    }
}

#[test]
fn lines_are_the_same_however_a_script_is_cut(rt: HostRuntime) {
    for size in [1, 7, 100] {
        assert!(rt; is_cut_in(rt.alloc(), size), "in pieces of {size}");
    }
}

// Whether so many bytes of the piece are taken, and give this line or none.
fn gives(lines: &mut Lines, piece: &str, taken: usize, line: Option<&str>) -> bool {
    let fed = lines.feed(piece.as_bytes());
    fed.taken == taken && is_ready_as(lines, fed.ready, line)
}

fn is_ready_as(lines: &Lines, ready: Ready, line: Option<&str>) -> bool {
    match line {
        Some(line) => ready == Ready::Whole && lines.line() == line.as_bytes(),
        None => ready == Ready::NotYet,
    }
}

fn ends(lines: &mut Lines, line: Option<&str>) -> bool {
    let ready = lines.finish();
    is_ready_as(lines, ready, line)
}

fn are_told(lines: &mut Lines) -> bool {
    gives(lines, "set /a 5\r\n\nget /a\n", 10, Some("set /a 5\r"))
        && gives(lines, "\nget /a\n", 1, Some(""))
        && gives(lines, "quit", 4, None)
        && ends(lines, Some("quit"))
        && ends(lines, None)
}

#[test]
fn lines_are_told_as_they_come(rt: HostRuntime) {
    let mut lines = Lines::new();
    assert!(rt; are_told(&mut lines));
}

#[test]
fn a_value_gives_its_text_back(rt: HostRuntime) -> Result<(), Fail> {
    let value = ValueText::new(String::from_str(rt.alloc(), "1.50")?);
    assert!(rt; value.into_string().as_str() == "1.50");
    Ok(())
}
