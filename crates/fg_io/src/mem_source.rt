// A fake source in memory, for tests.
ghost use Rattle.std.specs.Prelude.{◌≡◌, ◌↔◌, ◌<◌, ◌++◌, length, take, drop, IsErr, IfOk, OnErr};
ghost use Rattle.std.specs.Io.{ReadsAtMost};
ghost use Rattle.std.specs.Io.KnownBytes.{ReadConsumes};
ghost use Rattle.fg_io.specs.Outside.{Counts};
ghost use Rattle.fg_io.specs.Calls.{Fails};
ghost use Rattle.fg_io.specs.SourceState.{given_count, after_giving, after_failing};

use crate::{Failed, Source};
use std::marker::Model;

/// A source in memory, which gives a few bytes at a time and fails where it is asked to.
#[derive(Drop)]
pub struct MemSource {
    bytes: Vec<u8>,
    at: usize,
    most: u32,
    failing: Vec<u64>,
    calls: u64,
    faults: u64,
}

impl Model for MemSource {
    ghost use Rattle.std.specs.Prelude.{◌<◌, ◌≤◌, drop, vec_len};
    ghost use Rattle.fg_io.specs.SourceState.{SourceState};

    ghost Value = { SourceState };

    ghost view = { λ s. record {
      left = drop s.at s.bytes.items;
      most = s.most;
      failing = s.failing.items;
      calls = s.calls;
      faults = s.faults;
    } };

    ghost invariant = { λ s. (s.at ≤ vec_len s.bytes) × (0 < s.most) };
}

impl MemSource {
    /// A source of these bytes that gives at most `most` a call. The calls with these numbers, from 1, fail.
    pub fn new(bytes: Vec<u8>, most: u32, failing: Vec<u64>) -> Self
        requires { 0 < most }
        ensures { result ≡ record {
          left = bytes.items;
          most = most;
          failing = failing.items;
          calls = 0;
          faults = 0;
        } }
    {
        MemSource {
            bytes,
            at: 0,
            most,
            failing,
            calls: 0,
            faults: 0,
        }
    }
}

impl<K> Source<K> for MemSource {
    ghost use Rattle.std.specs.declared.option.Option.TheVariants.{Some};
    ghost use Rattle.fg_io.specs.SourceState.{PullEnds, input_shown};

    ghost input = { input_shown };

    ghost pulled = { λ old out room came new. PullEnds old new room came };

    fn pull(&mut self, _out: &K, buf: &mut [u8]) -> Result<usize, Failed>
        requires { 0 < length buf.old }
        ensures bound { ReadsAtMost result buf.new }
        ensures bytes { ReadConsumes (Some self.old.left) (Some self.new.left) result buf.new }
        ensures cause { Counts self.old.faults self.new.faults result }
        // The calls that fail are those with a failing number.
        ensures fails { IsErr result ↔ Fails self.old.failing self.old.calls }
        ensures err { OnErr result (self.new ≡ after_failing self.old) }
        ensures count { IfOk result (λ count. count ≡ given_count self.old (length buf.old)) }
        ensures after { IfOk result (λ count. self.new ≡ after_giving self.old count) }
        ensures moved { IfOk result (λ count. buf.new ≡ take count self.old.left ++ drop count buf.old) }
        ensures untouched { OnErr result (buf.new ≡ buf.old) }
    {
        self.calls = self.calls.saturating_add(1);
        if self.failing.contains(&self.calls) {
            self.faults = self.faults.saturating_add(1);
            return Err(Failed);
        }
        let left = self.bytes.len() - self.at;
        let count = (self.most as usize).min(buf.len().min(left));
        buf[..count].copy_from_slice(&self.bytes[self.at..self.at + count]);
        self.at += count;
        Ok(count)
    }
}
