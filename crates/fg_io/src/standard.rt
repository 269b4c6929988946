// Standard input as a source, and standard output as a sink.
ghost use Rattle.std.specs.Prelude.{◌≡◌, ◌<◌, None, IfOk, MatchResult, length};
ghost use Rattle.std.specs.Io.{ReadsAtMost, WritesAtMost};
ghost use Rattle.std.specs.Io.KnownBytes.{ReadConsumes, WriteAppends};
ghost use Rattle.fg_io.specs.Outside.{Counts, next_count};

use crate::{Failed, Sink, Source};
use std::io::{Read, Stdin, Stdout, Write};
use std::marker::Model;

/// Standard input. It doesn't tell its bytes; contracts see its count of faults.
#[derive(Drop)]
pub struct StdinSource {
    stdin: Stdin,
    faults: u64,
}

impl Model for StdinSource {
    ghost use Rattle.std.specs.Prelude.{ℕ};

    ghost Value = { ℕ };

    ghost view = { λ s. s.faults };
}

impl StdinSource {
    pub fn new(stdin: Stdin) -> Self
        ensures { result ≡ 0 }
    {
        StdinSource { stdin, faults: 0 }
    }
}

impl<K> Source<K> for StdinSource {
    ghost use Rattle.std.specs.declared.option.Option.TheVariants.{None};
    ghost use Rattle.fg_io.specs.Calls.{IsCounted};

    ghost input = { λ count. record { left = None; faults = count } };

    ghost pulled = { λ count out room came count_now. IsCounted count count_now came };

    fn pull(&mut self, _out: &K, buf: &mut [u8]) -> Result<usize, Failed>
        requires { 0 < length buf.old }
        ensures bound { ReadsAtMost result buf.new }
        ensures bytes { ReadConsumes None None result buf.new }
        ensures cause { Counts self.old self.new result }
        ensures counts { MatchResult result (λ _. self.new ≡ self.old) (λ _. self.new ≡ next_count self.old) }
    {
        match self.stdin.read(buf) {
            Ok(count) => Ok(count),
            Err(_) => {
                self.faults = self.faults.saturating_add(1);
                Err(Failed)
            }
        }
    }
}

/// Standard output, without a buffer. It doesn't tell its bytes; contracts see its count of faults.
/// A write that takes nothing is a fault.
#[derive(Drop)]
pub struct StdoutSink {
    stdout: Stdout,
    faults: u64,
}

impl Model for StdoutSink {
    ghost use Rattle.std.specs.Prelude.{ℕ};

    ghost Value = { ℕ };

    ghost view = { λ s. s.faults };
}

impl StdoutSink {
    pub fn new(stdout: Stdout) -> Self
        ensures { result ≡ 0 }
    {
        StdoutSink { stdout, faults: 0 }
    }
}

impl Sink for StdoutSink {
    ghost use Rattle.std.specs.declared.option.Option.TheVariants.{None};
    ghost use Rattle.fg_io.specs.Outside.{follows_any};

    ghost output = { λ count. record { taken = None; faults = count; follows = follows_any } };

    fn put(&mut self, piece: &[u8]) -> Result<usize, Failed>
        requires { 0 < length piece.now }
        ensures bound { WritesAtMost result piece.now }
        ensures some { IfOk result (λ count. 0 < count) }
        ensures bytes { WriteAppends None None result piece.now }
        ensures cause { Counts self.old self.new result }
        ensures counts { MatchResult result (λ _. self.new ≡ self.old) (λ _. self.new ≡ next_count self.old) }
    {
        match self.stdout.write(piece) {
            Ok(count) if count > 0 => Ok(count),
            _ => {
                self.faults = self.faults.saturating_add(1);
                Err(Failed)
            }
        }
    }
}
