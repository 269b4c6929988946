// The text that a call says, kept in memory for the host.
ghost use Rattle.std.specs.Prelude.{◌≡◌, ◌+◌, ◌<◌, ◌≤◌, [], ◌++◌, length, take, drop, min, OnOk, vec_capacity};

use fact_values::NoMemory;
use fg_io::{Failed, Sink};
use std::alloc::Global;

/// Bytes that were said. It fails to take more where the room is full and there is no memory.
#[derive(Drop)]
pub struct Text {
    pub bytes: Vec<u8>,
    /// How many bytes are taken without memory.
    pub room: usize,
    pub faults: u64,
    pub ghost roomy: { room ≤ vec_capacity bytes },
    pub ghost full: { 0 < faults → room ≤ length bytes.items },
}

impl Text {
    /// Nothing is said, and no memory is taken.
    pub fn new(alloc: Global) -> Text
        ensures { result.bytes.items ≡ [] }
    {
        Text {
            bytes: Vec::new(alloc),
            room: 0,
            faults: 0,
        }
    }

    /// Takes the memory for a text of so many bytes. What was said is taken back.
    pub fn make_room(&mut self, room: usize) -> Result<(), NoMemory>
        ensures said { self.new.bytes.items ≡ [] }
        ensures roomy { OnOk result (room ≤ self.new.room) }
    {
        self.clear();
        if room <= self.room {
            return Ok(());
        }
        self.bytes.reserve(room)?;
        self.room = room;
        self.faults = 0;
        Ok(())
    }

    /// Takes back what was said.
    pub fn clear(&mut self)
        ensures { self.new.bytes.items ≡ [] }
    {
        self.faults = 0;
        self.bytes.clear();
    }

    /// How many bytes were said.
    pub fn len(&self) -> usize
        ensures { result ≡ length self.now.bytes.items }
    {
        self.bytes.len()
    }

    /// Copies the bytes from a place on, as far as there is room, and tells how many.
    pub fn copy(&self, from: usize, out: &mut [u8]) -> usize
        ensures count { result ≡ min (length out.old) (length (drop from self.now.bytes.items)) }
        ensures copied { out.new ≡ take result (drop from self.now.bytes.items) ++ drop result out.old }
    {
        if from >= self.bytes.len() {
            return 0;
        }
        let rest = &self.bytes.as_slice()[from..];
        let count = out.len().min(rest.len());
        out[..count].copy_from_slice(&rest[..count]);
        count
    }
}

impl Sink for Text {
    ghost use Rattle.std.specs.Prelude.{◌∷◌};
    ghost use Rattle.std.specs.declared.option.Option.TheVariants.{Some};
    ghost use Rattle.fg_io.specs.Outside.{follows_any};

    // Its room stands before the bytes, so that whoever puts bytes is known to leave it.
    ghost output = { λ text. record { taken = Some (text.room ∷ text.bytes.items); faults = text.faults; follows = follows_any } };

    fn put(&mut self, piece: &[u8]) -> Result<usize, Failed> {
        if self.bytes.len() < self.room {
            let count = piece.len().min(self.room - self.bytes.len());
            self.bytes.extend_from_slice(&piece[..count]).unwrap();
            return Ok(count);
        }
        match self.bytes.extend_from_slice(piece) {
            Ok(()) => Ok(piece.len()),
            Err(_) => {
                self.faults = self.faults.saturating_add(1);
                Err(Failed)
            }
        }
    }
}
