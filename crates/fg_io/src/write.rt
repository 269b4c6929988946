// Writing a whole piece to a sink that may take a part at a time.
ghost use Rattle.std.specs.Prelude.{[], ◌∷◌, List, ℕ, OnOk};
ghost use Rattle.fg_io.specs.Outside.{Counts};
ghost use Rattle.fg_io.specs.Puts.{PutAs};
ghost use Rattle.fg_io.specs.Sent.{Sent};

use crate::{Failed, Sink};

/// Puts a piece whole: what a put leaves over is put next. After a failure a part of the piece was taken, and nothing is put any more.
pub fn put_all<K: Sink>(out: &mut K, piece: &[u8]) -> Result<(), Failed>
    ensures whole { OnOk result (Sent (K.output out.old).taken (K.output out.new).taken piece.now []) }
    ensures part { (rest : List ℕ) × Sent (K.output out.old).taken (K.output out.new).taken piece.now rest }
    ensures cause { Counts (K.output out.old).faults (K.output out.new).faults result }
    ensures puts { PutAs (K.output out.old) (K.output out.new) (piece.now ∷ []) result }
{
    let mut rest = piece;
    while !rest.is_empty() {
        let count = out.put(rest)?;
        rest = &rest[count..];
    }
    Ok(())
}
