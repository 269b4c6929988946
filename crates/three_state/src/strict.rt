// Operations that need all of their operands: whether they can be done.
ghost use Rattle.std.specs.Prelude.{◌≡◌, [], ◌∷◌, ◌++◌, List};
ghost use Rattle.three_state.specs.Folds.{verdict_next};
ghost use Rattle.three_state.specs.Results.{outcome, verdict_of};
ghost use Rattle.three_state.specs.declared.res.Res.{Res};

use crate::res::Res;
use fact_values::{Value, ValueFault};
use std::marker::Model;

/// What the operands of a strict operation say.
#[derive(Clone, Copy, Debug, PartialEq, Eq)]
pub enum Verdict {
    /// Each has a value, so the operation is done. The flag says that all are complete.
    Go(bool),
    /// Some operand is incomplete.
    Incomplete,
    /// The first fault of the operands, none of which is incomplete.
    Fault(ValueFault),
}

/// The operands of a strict operation, seen one by one. Contracts see the verdict on them.
#[derive(Drop)]
pub struct Strict {
    so_far: Verdict,
}

impl Model for Strict {
    ghost use Rattle.three_state.specs.declared.strict.Verdict.{Verdict};

    ghost Value = { Verdict };

    ghost view = { λ s. s.so_far };
}

impl Strict {
    /// No operand was seen.
    pub fn new() -> Strict
        ensures { result ≡ verdict_of [] }
    {
        Strict {
            so_far: Verdict::Go(true),
        }
    }

    /// Sees the next operand.
    pub fn see(&mut self, res: &Res)
        ensures next { self.new ≡ verdict_next self.old res.now }
        ensures seen { (rs : List Res) → self.old ≡ verdict_of rs → self.new ≡ verdict_of (rs ++ res.now ∷ []) }
    {
        self.so_far = next_verdict(self.so_far, res);
    }

    /// The verdict on the operands seen.
    pub fn verdict(&self) -> Verdict
        ensures { result ≡ self.now }
    {
        self.so_far
    }
}

/// The verdict with one more operand.
fn next_verdict(so_far: Verdict, res: &Res) -> Verdict
    ensures { result ≡ verdict_next so_far res.now }
{
    match so_far {
        Verdict::Go(complete) => match res {
            Res::Complete(_) => Verdict::Go(complete),
            Res::Placeholder(_) => Verdict::Go(false),
            Res::Incomplete => Verdict::Incomplete,
            Res::Fault(fault) => Verdict::Fault(*fault),
        },
        Verdict::Incomplete => Verdict::Incomplete,
        Verdict::Fault(first) => match res {
            Res::Incomplete => Verdict::Incomplete,
            _ => Verdict::Fault(first),
        },
    }
}

/// The result of an operation that was done: its fault, or its value, which is complete where all
/// operands are.
pub fn finish(complete: bool, done: Result<Value, ValueFault>) -> Res
    ensures { result ≡ outcome complete done }
{
    match done {
        Ok(v) => {
            if complete {
                Res::Complete(v)
            } else {
                Res::Placeholder(v)
            }
        }
        Err(fault) => Res::Fault(fault),
    }
}
