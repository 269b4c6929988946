// What is kept of the values seen by an operation with many operands.
ghost use Rattle.std.specs.Prelude.{◌≡◌, ◌<◌, ◌^◌, IsErr, OnErr, OnOk};
ghost use Rattle.fact_values.specs.Values.{HoldsMemory};
ghost use Rattle.operations.specs.ManyFolds.{calls_of, extreme_end, extreme_next, gathered_end, gathered_next, is_beyond};

use crate::numbers::order;
use crate::sum::Summed;
use fact_values::{NoMemory, Value, ValueFault, Whole};
use std::alloc::Global;

/// Which of the values seen is kept.
#[derive(Clone, Copy)]
pub enum Extreme {
    Greatest,
    Least,
}

/// What an operation with many operands keeps of the values seen.
#[derive(Drop)]
pub enum Gathered {
    Added(Summed),
    Subtracted(Summed),
    /// The greatest value, if one was seen.
    Greatest(Option<Value>),
    Least(Option<Value>),
}

impl Gathered {
    /// Sees the next value.
    pub fn see(&mut self, value: Value)
        requires few { calls_of self.old < 2 ^ 64 }
        ensures { self.new ≡ gathered_next self.old value }
    {
        match self {
            Gathered::Added(sum) => {
                sum.add(&value);
                drop(value);
            }
            Gathered::Subtracted(sum) => {
                sum.subtract(&value);
                drop(value);
            }
            Gathered::Greatest(greatest) => keep(Extreme::Greatest, greatest, value),
            Gathered::Least(least) => keep(Extreme::Least, least, value),
        }
    }

    /// Sees the next value, which stays where it is: it is copied where it is kept.
    #[inline(always)]
    pub fn see_lent(&mut self, alloc: Global, value: &Value) -> Result<(), NoMemory>
        requires few { calls_of self.old < 2 ^ 64 }
        ensures ok { OnOk result (self.new ≡ gathered_next self.old value.now) }
        ensures unchanged { OnErr result (self.new ≡ self.old) }
        ensures memory { IsErr result → HoldsMemory value.now }
    {
        match self {
            Gathered::Added(sum) => sum.add(value),
            Gathered::Subtracted(sum) => sum.subtract(value),
            Gathered::Greatest(greatest) => keep_lent(alloc, Extreme::Greatest, greatest, value)?,
            Gathered::Least(least) => keep_lent(alloc, Extreme::Least, least, value)?,
        }
        Ok(())
    }

    /// What the operation gives.
    pub fn end(self) -> Result<Value, ValueFault>
        ensures { result ≡ gathered_end self }
    {
        match self {
            Gathered::Added(sum) => sum.sum(),
            Gathered::Subtracted(sum) => sum.difference(),
            Gathered::Greatest(greatest) => Ok(or_zero(greatest)),
            Gathered::Least(least) => Ok(or_zero(least)),
        }
    }
}

/// Whether the next value is kept in place of this one. Of two that are equal, the earlier one is kept.
fn goes_beyond(extreme: Extreme, kept: &Value, next: &Value) -> bool
    ensures { result ≡ is_beyond extreme kept.now next.now }
{
    let order = order(kept, next);
    match extreme {
        Extreme::Greatest => order.is_lt(),
        Extreme::Least => order.is_gt(),
    }
}

fn keep(extreme: Extreme, so_far: &mut Option<Value>, value: Value)
    ensures { so_far.new ≡ extreme_next extreme so_far.old value }
{
    match so_far {
        Some(kept) => {
            if goes_beyond(extreme, kept, &value) {
                *kept = value;
            } else {
                drop(value);
            }
        }
        None => *so_far = Some(value),
    }
}

/// The same of a value that stays where it is, and is copied where it is kept.
#[inline(never)]
fn keep_lent(
    alloc: Global,
    extreme: Extreme,
    so_far: &mut Option<Value>,
    value: &Value,
) -> Result<(), NoMemory>
    ensures ok { OnOk result (so_far.new ≡ extreme_next extreme so_far.old value.now) }
    ensures unchanged { OnErr result (so_far.new ≡ so_far.old) }
    ensures memory { IsErr result → HoldsMemory value.now }
{
    match so_far {
        Some(kept) => {
            if goes_beyond(extreme, kept, value) {
                *kept = value.copy(alloc)?;
            }
        }
        None => *so_far = Some(value.copy(alloc)?),
    }
    Ok(())
}

fn or_zero(extreme: Option<Value>) -> Value
    ensures { result ≡ extreme_end extreme }
{
    match extreme {
        Some(value) => value,
        None => Value::Int(Whole::new(0).unwrap()),
    }
}
