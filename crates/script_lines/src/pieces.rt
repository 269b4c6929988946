// All lines of a script that is at hand in pieces.
ghost use Rattle.std.specs.Prelude.{◌≡◌, ◌++◌, List, ℕ, IfOk, OnOk};
ghost use Rattle.std.specs.List.{flat_map};
ghost use Rattle.script_lines.specs.Lines.{script_lines, ready_lines};
ghost use Rattle.script_lines.specs.Pieces.{lines_read};

use crate::lines::{Lines, Ready};
use std::alloc::{AllocError, Global};

/// The lines of a script that comes in these pieces, however they are cut.
/// `None` stands for a line of more than 4,096 bytes. It fails only where memory is wanting.
pub fn lines_of_pieces(alloc: Global, pieces: &[&[u8]]) -> Result<Vec<Option<Vec<u8>>>, AllocError>
    ensures { IfOk result (λ found. lines_read found.items ≡ script_lines (flat_map (λ piece. piece.now) pieces.now)) }
{
    let mut lines = Lines::new();
    let mut found = Vec::new(alloc);
    for piece in pieces {
        add_piece(alloc, &mut lines, &mut found, piece)?;
    }
    let last = lines.finish();
    add_line(alloc, &mut found, last, lines.line())?;
    Ok(found)
}

// Adds the lines that end in the piece.
fn add_piece(
    alloc: Global,
    lines: &mut Lines,
    found: &mut Vec<Option<Vec<u8>>>,
    piece: &[u8],
) -> Result<(), AllocError>
    ensures { OnOk result ((more : List ℕ) → lines_read found.old.items ++ script_lines
        (lines.old.so_far ++ (piece.now ++ more))
        ≡ lines_read found.new.items ++ script_lines (lines.new.so_far ++ more)) }
{
    let mut rest = piece;
    while !rest.is_empty() {
        let fed = lines.feed(rest);
        add_line(alloc, found, fed.ready, lines.line())?;
        rest = &rest[fed.taken..];
    }
    Ok(())
}

fn add_line(
    alloc: Global,
    found: &mut Vec<Option<Vec<u8>>>,
    ready: Ready,
    line: &[u8],
) -> Result<(), AllocError>
    ensures { OnOk result (lines_read found.new.items ≡ lines_read found.old.items ++ ready_lines ready line.now) }
{
    match ready {
        Ready::NotYet => {}
        Ready::Whole => found.push(Some(line.to_vec(alloc)?))?,
        Ready::Long => found.push(None)?,
    }
    Ok(())
}
