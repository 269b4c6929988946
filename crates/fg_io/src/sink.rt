// Sinks: streams of bytes to write.
ghost use Rattle.std.specs.Prelude.{◌<◌, ◌∷◌, [], length, IfOk};
ghost use Rattle.std.specs.Io.{WritesAtMost};
ghost use Rattle.std.specs.Io.KnownBytes.{WriteAppends};
ghost use Rattle.fg_io.specs.Outside.{Counts, Follows, Output, put_as};

use crate::Failed;

/// A stream of bytes to write.
pub trait Sink {
    /// The bytes taken, where it tells them, how often it has failed, and behind which puts it may stand so. The count stands still at the
    /// end of a `u64`.
    ghost output: { Self → Output };

    /// Takes the first bytes of the piece, at least one, and answers how many.
    fn put(&mut self, piece: &[u8]) -> Result<usize, Failed>
        requires { 0 < length piece.now }
        ensures bound { WritesAtMost result piece.now }
        ensures some { IfOk result (λ count. 0 < count) }
        ensures bytes { WriteAppends (output self.old).taken (output self.new).taken result piece.now }
        ensures cause { Counts (output self.old).faults (output self.new).faults result }
        ensures call { Follows (output self.old) (output self.new) (put_as result piece.now ∷ []) };
}
