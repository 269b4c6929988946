// Results of operations that need all of their operands, from the verdict on these.
ghost use Rattle.std.specs.Prelude.{◌≡◌};
ghost use Rattle.operations.specs.Sources.{verdict_on_source};
ghost use Rattle.three_state.specs.Results.{after_verdict, is_true};

use fact_values::{Value, ValueFault};
use three_state::{Res, Strict, Verdict, finish, truth};

/// The result of a strict operation, from the verdict on its operands and what it gives.
pub(crate) fn after_verdict(verdict: Verdict, done: Result<Value, ValueFault>) -> Res
    ensures { result ≡ after_verdict verdict done }
{
    match verdict {
        Verdict::Go(complete) => finish(complete, done),
        Verdict::Incomplete => Res::Incomplete,
        Verdict::Fault(fault) => Res::Fault(fault),
    }
}

/// Whether the result is true, complete or as a placeholder.
pub fn is_true(res: &Res) -> bool
    ensures { result ≡ is_true res.now }
{
    match res {
        Res::Complete(v) => truth(v),
        Res::Placeholder(v) => truth(v),
        Res::Incomplete => false,
        Res::Fault(_) => false,
    }
}

/// Whether a collection has members to go through, as an operand of a strict operation.
pub fn source_verdict(source: &Res) -> Verdict
    ensures { result ≡ verdict_on_source source.now }
{
    let mut verdict = Strict::new();
    verdict.see(source);
    verdict.verdict()
}
