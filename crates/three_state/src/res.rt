// Results: complete, placeholder, incomplete, or at fault.
ghost use Rattle.std.specs.Prelude.{◌≡◌, ◌↔◌, IsTrue, IfOk, IsErr};
ghost use Rattle.three_state.specs.Equality.{res_same};
ghost use Rattle.three_state.specs.Results.{ValueHoldsMemory, down as weakened, truth as truth_of};

use fact_values::{NoMemory, Value, ValueFault, same};
use std::alloc::Global;

/// The result of a fact, or of a part of its rule.
#[derive(Debug, Drop)]
pub enum Res {
    /// The value, which no placeholder decided.
    Complete(Value),
    /// The value, which rests on a placeholder.
    Placeholder(Value),
    /// None yet: an answer is missing, no case applies, or no member was found.
    Incomplete,
    Fault(ValueFault),
}

impl Res {
    /// An equal result. It wants memory for a text or a list of members alone.
    pub fn copy(&self, alloc: Global) -> Result<Res, NoMemory>
        ensures value { IfOk result (λ r. r ≡ self.now) }
        ensures memory { IsErr result → ValueHoldsMemory self.now }
    {
        Ok(match self {
            Res::Complete(v) => Res::Complete(v.copy(alloc)?),
            Res::Placeholder(v) => Res::Placeholder(v.copy(alloc)?),
            Res::Incomplete => Res::Incomplete,
            Res::Fault(fault) => Res::Fault(*fault),
        })
    }

    /// Whether both are of one kind, with equal values or the same fault.
    #[tactic(auto, using(crate::proofs::EqualityLaws::answers_value_same))]
    pub fn same(&self, other: &Res) -> bool
        ensures test { result ≡ res_same self.now other.now }
        ensures equal { IsTrue result ↔ (self.now ≡ other.now) }
    {
        match (self, other) {
            (Res::Complete(v), Res::Complete(w)) => same(v, w),
            (Res::Placeholder(v), Res::Placeholder(w)) => same(v, w),
            (Res::Incomplete, Res::Incomplete) => true,
            (Res::Fault(f), Res::Fault(g)) => *f == *g,
            _ => false,
        }
    }
}

/// The result as one that rests on a placeholder: a complete value becomes a placeholder.
pub fn down(res: Res) -> Res
    ensures { result ≡ weakened res }
{
    match res {
        Res::Complete(v) => Res::Placeholder(v),
        other => other,
    }
}

/// The truth of a value. One that isn't Boolean counts as false.
pub fn truth(value: &Value) -> bool
    ensures { result ≡ truth_of value.now }
{
    match value {
        Value::Boolean(b) => *b,
        _ => false,
    }
}
