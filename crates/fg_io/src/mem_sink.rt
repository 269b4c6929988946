// A fake sink in memory, for tests.
ghost use Rattle.std.specs.Prelude.{◌≡◌, ◌⊎◌, ◌↔◌, ◌<◌, ◌≤◌, length, [], Contains, IsTrue, IsErr, IfOk, OnErr};
ghost use Rattle.std.specs.Io.{WritesAtMost};
ghost use Rattle.std.specs.Io.KnownBytes.{WriteAppends};
ghost use Rattle.fg_io.specs.Outside.{Counts};
ghost use Rattle.fg_io.specs.Calls.{Fails};
ghost use Rattle.fg_io.specs.SinkState.{room, taken_count, after_taking, after_failing};

use crate::{Failed, Sink};
use fact_values::NoMemory;
use std::alloc::Global;
use std::marker::Model;

const ROOM: usize = 1_000_000;

/// A sink in memory, which takes a few bytes at a time and fails where it is asked to.
/// It has room for 1,000,000 bytes, so a put takes no memory.
#[derive(Drop)]
pub struct MemSink {
    bytes: Vec<u8>,
    most: u32,
    failing: Vec<u64>,
    calls: u64,
    faults: u64,
}

impl Model for MemSink {
    ghost use Rattle.std.specs.Prelude.{◌<◌, ◌≤◌, vec_len, vec_capacity};
    ghost use Rattle.fg_io.specs.SinkState.{SinkState, room};

    ghost Value = { SinkState };

    ghost view = { λ s. record {
      taken = s.bytes.items;
      most = s.most;
      failing = s.failing.items;
      calls = s.calls;
      faults = s.faults;
    } };

    ghost invariant = { λ s.
        (room ≤ vec_capacity s.bytes) × (vec_len s.bytes ≤ room) × (0 < s.most) };
}

// The sink is full, or the call with this number is to fail.
fn is_refused(taken: &[u8], failing: &[u64], call: u64) -> bool
    ensures { IsTrue result ↔ ((room ≤ length taken.now) ⊎ Contains failing.now call) }
{
    taken.len() >= ROOM || failing.contains(&call)
}

impl MemSink {
    /// An empty sink that takes at most `most` bytes a call. The calls with these numbers, from 1, fail.
    pub fn new(alloc: Global, most: u32, failing: Vec<u64>) -> Result<Self, NoMemory>
        requires { 0 < most }
        ensures { IfOk result (λ sink. sink ≡ record {
          taken = [];
          most = most;
          failing = failing.items;
          calls = 0;
          faults = 0;
        }) }
    {
        Ok(MemSink {
            bytes: Vec::with_capacity(alloc, ROOM)?,
            most,
            failing,
            calls: 0,
            faults: 0,
        })
    }

    /// What it took.
    pub fn bytes(&self) -> &[u8]
        ensures { result.now ≡ self.now.taken }
    {
        &self.bytes
    }
}

impl Sink for MemSink {
    ghost use Rattle.std.specs.declared.option.Option.TheVariants.{Some};
    ghost use Rattle.fg_io.specs.SinkState.{output_shown};

    ghost output = { output_shown };

    fn put(&mut self, piece: &[u8]) -> Result<usize, Failed>
        requires { 0 < length piece.now }
        ensures bound { WritesAtMost result piece.now }
        ensures some { IfOk result (λ count. 0 < count) }
        ensures bytes { WriteAppends (Some self.old.taken) (Some self.new.taken) result piece.now }
        ensures cause { Counts self.old.faults self.new.faults result }
        // The calls that fail are those with a failing number, and each once the sink is full.
        ensures fails { IsErr result ↔ ((room ≤ length self.old.taken) ⊎ Fails self.old.failing self.old.calls) }
        ensures err { OnErr result (self.new ≡ after_failing self.old) }
        ensures count { IfOk result (λ count. count ≡ taken_count self.old (length piece.now)) }
        ensures after { IfOk result (λ count. self.new ≡ after_taking self.old piece.now count) }
    {
        self.calls = self.calls.saturating_add(1);
        if is_refused(&self.bytes, &self.failing, self.calls) {
            self.faults = self.faults.saturating_add(1);
            return Err(Failed);
        }
        let room = ROOM - self.bytes.len();
        let count = (self.most as usize).min(piece.len().min(room));
        self.bytes.extend_from_slice(&piece[..count]).unwrap();
        Ok(count)
    }
}
