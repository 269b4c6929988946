// What is kept of one line: as many bytes as a line may have, and whether it has more.
ghost use Rattle.std.specs.Prelude.{◌≡◌, ◌≤◌, ◌∷◌, [], Bool, true, false, length};
ghost use Rattle.script_lines.specs.Lines.{line_of, ready_lines, HasNoNewline};
ghost use Rattle.script_lines.specs.LineSoFar.{read_as, GoesOnAs};

use crate::lines::Ready;
use arrayvec::ArrayVec;

/// The most bytes that a line may have, its newline not counted.
const LONGEST: usize = 4096;

/// A line as far as it has come.
#[derive(Drop)]
pub struct LineSoFar {
    pub bytes: ArrayVec<u8, LONGEST>,
    pub is_long: bool,
    ghost no_newline: { HasNoNewline bytes.items },
    ghost fits: { length bytes.items ≤ 4096 },
    ghost full: { is_long ≡ true → length bytes.items ≡ 4096 },
}

impl LineSoFar {
    pub fn new() -> Self
        ensures bytes { result.bytes.items ≡ [] }
        ensures short { result.is_long ≡ false }
    {
        LineSoFar {
            bytes: ArrayVec::new(),
            is_long: false,
        }
    }

    pub fn clear(&mut self)
        ensures bytes { self.new.bytes.items ≡ [] }
        ensures short { self.new.is_long ≡ false }
    {
        self.bytes.clear();
        self.is_long = false;
    }

    /// Keeps what fits of a text by which the line goes on.
    pub fn add(&mut self, text: &[u8])
        requires { HasNoNewline text.now }
        ensures { GoesOnAs (read_as self.old.bytes.items self.old.is_long) text.now
            (read_as self.new.bytes.items self.new.is_long) }
    {
        let count = text.len().min(LONGEST - self.bytes.len());
        self.bytes.try_extend_from_slice(&text[..count]).unwrap();
        self.is_long |= count < text.len();
    }

    /// The line as it is ready if it ends here.
    pub fn ready(&self) -> Ready
        ensures { ready_lines result self.now.bytes.items
            ≡ line_of (read_as self.now.bytes.items self.now.is_long) ∷ [] }
    {
        if self.is_long {
            Ready::Long
        } else {
            Ready::Whole
        }
    }
}
