// The buffer of one line of output.
ghost use Rattle.std.specs.Prelude.{◌≡◌, ◌+◌, ◌≤◌, [], ◌++◌, length};

use std::marker::Model;

/// The most bytes that a line holds.
const CAPACITY: usize = 1_100;

/// A buffer for the bytes of one line of output. It allocates nothing.
#[derive(Drop)]
pub struct Line {
    buffer: [u8; CAPACITY],
    len: usize,
}

impl Model for Line {
    ghost use Rattle.std.specs.Prelude.{ℕ, ◌≤◌, List, take};

    ghost Value = { List ℕ };

    ghost view = { λ line. take line.len line.buffer };

    ghost invariant = { λ line. line.len ≤ 1100 };
}

impl Line {
    /// A line with no bytes.
    pub fn new() -> Line
        ensures { result ≡ [] }
    {
        Line {
            buffer: [0; CAPACITY],
            len: 0,
        }
    }

    /// The bytes so far.
    pub fn bytes(&self) -> &[u8]
        ensures value { result.now ≡ self.now }
        ensures fits { length result.now ≤ 1100 }
    {
        &self.buffer[..self.len]
    }

    /// Takes every byte away.
    pub fn clear(&mut self)
        ensures { self.new ≡ [] }
    {
        self.len = 0;
    }

    /// Appends bytes, for which there must be room.
    pub fn push(&mut self, piece: &[u8])
        requires { length self.old + length piece.now ≤ 1100 }
        ensures appended { self.new ≡ self.old ++ piece.now }
        ensures len { length self.new ≡ length self.old + length piece.now }
    {
        let end = self.len + piece.len();
        self.buffer[self.len..end].copy_from_slice(piece);
        self.len = end;
    }
}
