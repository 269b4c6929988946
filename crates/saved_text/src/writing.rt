// Puts a line with its newline, as one piece.
ghost use Rattle.std.specs.Prelude.{◌+◌, ◌<◌, ◌++◌, ◌∷◌, [], length};
ghost use Rattle.saved_text.specs.Writing.{WroteAs};

use arrayvec::ArrayVec;
use fg_io::{Failed, Sink, put_piece};

/// How many bytes a line of a saved text has at most, with its newline: a slot's path and its value have their place in it.
const ROOM: usize = 1_200;

/// Puts a line with its newline, as one piece. The line is what the two texts make together.
pub fn put_line<K: Sink>(front: &[u8], back: &[u8], out: &mut K) -> Result<(), Failed>
    requires { length front.now + length back.now < 1200 }
    ensures { WroteAs (K.output out.old) (K.output out.new) ((front.now ++ back.now) ∷ []) result }
{
    let mut line = ArrayVec::<u8, ROOM>::new();
    line.try_extend_from_slice(front).unwrap();
    line.try_extend_from_slice(back).unwrap();
    line.try_extend_from_slice(b"\n").unwrap();
    put_piece(line.as_slice(), out)
}
