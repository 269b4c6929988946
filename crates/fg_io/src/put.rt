// A text that is put whole, as most of what the program writes is.
ghost use Rattle.std.specs.Prelude.{[], ◌∷◌};
ghost use Rattle.fg_io.specs.Puts.{PutAs};
ghost use Rattle.fg_io.specs.Writing.{Wrote};

use crate::write::put_all;
use crate::{Failed, Sink};

/// Puts a text whole. After a failure a part of it was taken.
pub fn put_text<K: Sink>(text: &[u8], out: &mut K) -> Result<(), Failed>
    ensures { Wrote (K.output out.old) (K.output out.new) text.now result }
{
    put_all(out, text)
}

/// Puts a text whole, as one piece.
pub fn put_piece<K: Sink>(text: &[u8], out: &mut K) -> Result<(), Failed>
    ensures written { Wrote (K.output out.old) (K.output out.new) text.now result }
    ensures puts { PutAs (K.output out.old) (K.output out.new) (text.now ∷ []) result }
{
    put_all(out, text)
}
