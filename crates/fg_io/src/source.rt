// Sources: streams of bytes to read.
ghost use Rattle.std.specs.Prelude.{◌<◌, length};
ghost use Rattle.std.specs.Io.{ReadsAtMost};
ghost use Rattle.std.specs.Io.KnownBytes.{ReadConsumes};
ghost use Rattle.fg_io.specs.Outside.{ByPull, Counts, Input, pulled_as};

use crate::Failed;

/// A stream of bytes to read. Whoever reads it hands in the sink as it stands, so that what a source says of a pull says also what was
/// written before it. A source may look at it, as a terminal that shows what was written before it waits.
pub trait Source<K> {
    /// The bytes left, where it tells them, and how often it has failed. The count stands still at the end of a `u64`.
    ghost input: { Self → Input };

    /// What a pull makes of it, where the sink stands so: of this many bytes at most, which came to this.
    ghost pulled: { ByPull Self K };

    /// Moves the first bytes left into the buffer, and answers how many. 0 is the end of the stream.
    fn pull(&mut self, out: &K, buf: &mut [u8]) -> Result<usize, Failed>
        requires { 0 < length buf.old }
        ensures bound { ReadsAtMost result buf.new }
        ensures bytes { ReadConsumes (input self.old).left (input self.new).left result buf.new }
        ensures cause { Counts (input self.old).faults (input self.new).faults result }
        ensures call { pulled self.old out.now (length buf.old) (pulled_as result buf.new) self.new };
}
