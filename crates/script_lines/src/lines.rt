// Cutting a stream of bytes into lines as its pieces come.
ghost use Rattle.std.specs.Prelude.{◌≡◌, ◌<◌, ◌≤◌, [], ◌++◌, List, ℕ, length, drop, IfSome, IfNone, false, if◌then◌else◌};
ghost use Rattle.script_lines.specs.Lines.{script_lines, ready_lines, HasNoNewline, IsNewlineAt, TakesLine, EndsLine};
ghost use Rattle.script_lines.specs.LineSoFar.{read_as};

use crate::cutting::newline_at;
use crate::line_so_far::LineSoFar;
use std::marker::Model;

/// Whether a line is ready.
#[derive(Clone, Copy, Debug, PartialEq, Eq)]
pub enum Ready {
    /// No line has ended.
    NotYet,
    /// A line has ended that has at most 4,096 bytes, the newline not counted.
    Whole,
    /// A line has ended that has more.
    Long,
}

/// What was taken of a piece, and whether it ended a line.
#[derive(Clone, Copy, Debug, PartialEq, Eq)]
pub struct Fed {
    /// How many bytes were taken from the front of the piece, a newline among them.
    pub taken: usize,
    pub ready: Ready,
}

/// Cuts a script into lines while its bytes come, in pieces of any size.
///
/// A line ends with each byte 10, and the script's end ends a last line that has a byte.
/// No memory is taken: a line stands in a buffer of 4,096 bytes until the next call.
#[derive(Drop)]
pub struct Lines {
    kept: LineSoFar,
    is_ended: bool,
}

impl Model for Lines {
    ghost use Rattle.std.specs.Prelude.{[], if◌then◌else◌};
    ghost use Rattle.script_lines.specs.Lines.{Held};
    ghost use Rattle.script_lines.specs.LineSoFar.{read_as};

    ghost Value = { Held };

    ghost view = { λ l. record {
      so_far = if l.is_ended then [] else read_as l.kept.bytes.items l.kept.is_long;
      line = if l.is_ended then l.kept.bytes.items else [];
    } };
}

impl Lines {
    /// At the start of a script.
    pub fn new() -> Self
        ensures { result ≡ record { so_far = []; line = [] } }
    {
        Lines {
            kept: LineSoFar::new(),
            is_ended: false,
        }
    }

    /// Takes the piece up to and including its first newline, or all of it where it has none.
    /// Feed what is left of the piece next.
    pub fn feed(&mut self, piece: &[u8]) -> Fed
        ensures taken { result.taken ≤ length piece.now }
        ensures some { 0 < length piece.now → 0 < result.taken }
        ensures line { TakesLine self.old.so_far result.ready piece.now result.taken }
        ensures no_newline { HasNoNewline self.new.so_far }

        // What has ended and what is held make up the script, however it goes on.
        ensures stream { (more : List ℕ) → script_lines (self.old.so_far ++ (piece.now ++ more))
            ≡ ready_lines result.ready self.new.line ++ script_lines
            (self.new.so_far ++ (drop result.taken piece.now ++ more)) }
    {
        begin(&mut self.kept, &mut self.is_ended);
        match newline_at(piece) {
            None => {
                self.kept.add(piece);
                Fed {
                    taken: piece.len(),
                    ready: Ready::NotYet,
                }
            }
            Some(at) => {
                self.kept.add(&piece[..at]);
                self.is_ended = true;
                Fed {
                    taken: at + 1,
                    ready: self.kept.ready(),
                }
            }
        }
    }

    /// Ends the script: what came since the last newline is its last line, `NotYet` where that is nothing.
    /// The next piece begins another script.
    pub fn finish(&mut self) -> Ready
        ensures line { EndsLine self.old.so_far result }
        ensures last { script_lines self.old.so_far ≡ ready_lines result self.new.line }
        ensures none { self.new.so_far ≡ [] }
    {
        begin(&mut self.kept, &mut self.is_ended);
        if self.kept.bytes.is_empty() {
            return Ready::NotYet;
        }
        self.is_ended = true;
        self.kept.ready()
    }

    /// The line after `Whole`, without its newline; a byte 13 before that still stands in it.
    /// After another answer it is no line.
    pub fn line(&self) -> &[u8]
        ensures line { result.now ≡ self.now.line }
        ensures short { length self.now.line ≤ 4096 }
    {
        if self.is_ended { &self.kept.bytes } else { &[] }
    }
}

// Begins a new line where one has ended.
fn begin(kept: &mut LineSoFar, is_ended: &mut bool)
    ensures open_ { is_ended.new ≡ false }
    ensures so_far { read_as kept.new.bytes.items kept.new.is_long
        ≡ (if is_ended.old then [] else read_as kept.old.bytes.items kept.old.is_long) }
{
    if *is_ended {
        kept.clear();
        *is_ended = false;
    }
}
