// Sums and counts over the members of a collection.
ghost use Rattle.std.specs.Prelude.{◌≡◌, ℕ, pos, ◌+◌, ◌<◌, ◌≤◌, ◌^◌, [], ◌∷◌, ◌++◌, List, map};
ghost use Rattle.evaluation.specs.Reads.{sum_over};
ghost use Rattle.fact_values.specs.declared.fact_type.FactType.{FactType};
ghost use Rattle.operations.specs.FieldFolds.{AreCounted, AreSummed, added_after, count_end, count_saw, count_start, no_fields, sum_end, sum_saw, sum_start};
ghost use Rattle.operations.specs.Sums.{calls_in};
ghost use Rattle.three_state.specs.Results.{count_of, members_of};
ghost use Rattle.three_state.specs.declared.res.Res.{Res};

use crate::sum::Summed;
use crate::verdict::{after_verdict, is_true};
use fact_values::{FactType, Total, Value, Whole};
use std::marker::Model;
use three_state::{Res, Strict};

/// The fields of a CollectionSum, seen member by member. Contracts see how many were seen, the
/// verdict on the collection and on them, and the sum of their values.
#[derive(Drop)]
pub struct SumFold {
    count: u64,
    verdict: Strict,
    sum: Summed,
}

impl Model for SumFold {
    ghost use Rattle.std.specs.Prelude.{◌≤◌};
    ghost use Rattle.operations.specs.FieldFolds.{FieldsSummed};
    ghost use Rattle.operations.specs.Sums.{calls_in};

    ghost Value = { FieldsSummed };

    ghost view = { λ f. record { count = f.count; verdict = f.verdict; sum = f.sum } };

    ghost invariant = { λ f. calls_in f.sum ≤ f.count };
}

impl SumFold {
    /// The collection was seen, and no field, which are amounts or whole numbers by their type.
    pub fn new(field_type: FactType, source: &Res) -> SumFold
        ensures { result ≡ sum_start field_type source.now }
    {
        let mut verdict = Strict::new();
        verdict.see(source);
        SumFold {
            count: 0,
            verdict,
            sum: no_fields(field_type),
        }
    }

    /// Sees the field of the next member.
    pub fn see(&mut self, field: &Res)
        requires few { self.old.count + 1 < 2 ^ 64 }
        ensures next { self.new ≡ sum_saw self.old field.now }
        ensures seen { (t : FactType) (source : Res) (rs : List Res) → AreSummed t source rs self.old
            → AreSummed t source (rs ++ field.now ∷ []) self.new }
    {
        self.verdict.see(field);
        add_field(&mut self.sum, field);
        self.count += 1;
    }

    /// The result of the node.
    pub fn end(&self) -> Res
        ensures value { result ≡ sum_end self.now }
        ensures node { (t : FactType) (source : Res) (field : ℕ → Res)
            → AreSummed t source (map field (members_of source)) self.now → result ≡ sum_over t source field }
    {
        after_verdict(self.verdict.verdict(), self.sum.sum())
    }
}

/// Nothing was added yet.
fn no_fields(field_type: FactType) -> Summed
    ensures { result ≡ no_fields field_type }
{
    match field_type {
        FactType::Dollar => Summed::Dollars(Total::new(0)),
        _ => Summed::Ints(Total::new(0)),
    }
}

/// Adds the value of the field, if it has one.
fn add_field(sum: &mut Summed, field: &Res)
    requires few { calls_in sum.old < 2 ^ 64 }
    ensures { sum.new ≡ added_after sum.old field.now }
{
    match field {
        Res::Complete(v) => sum.add(v),
        Res::Placeholder(v) => sum.add(v),
        Res::Incomplete => {}
        Res::Fault(_) => {}
    }
}

/// The fields of a Count, seen member by member. Contracts see how many were seen, the verdict on
/// the collection and on them, and how many are true.
#[derive(Drop)]
pub struct CountFold {
    count: u64,
    verdict: Strict,
    found: u64,
}

impl Model for CountFold {
    ghost use Rattle.std.specs.Prelude.{◌≤◌, ◌^◌};
    ghost use Rattle.operations.specs.FieldFolds.{FieldsCounted};

    ghost Value = { FieldsCounted };

    ghost view = { λ f. record { count = f.count; verdict = f.verdict; found = f.found } };

    ghost invariant = { λ f. (f.found ≤ f.count) × (f.count ≤ 2 ^ 32) };
}

impl CountFold {
    /// The collection was seen, and no field.
    pub fn new(source: &Res) -> CountFold
        ensures { result ≡ count_start source.now }
    {
        let mut verdict = Strict::new();
        verdict.see(source);
        CountFold {
            count: 0,
            verdict,
            found: 0,
        }
    }

    /// Sees the field of the next member.
    pub fn see(&mut self, field: &Res)
        requires few { self.old.count < 2 ^ 32 }
        ensures next { self.new ≡ count_saw self.old field.now }
        ensures seen { (source : Res) (rs : List Res) → AreCounted source rs self.old
            → AreCounted source (rs ++ field.now ∷ []) self.new }
    {
        self.verdict.see(field);
        if is_true(field) {
            self.found += 1;
        }
        self.count += 1;
    }

    /// The result of the node.
    pub fn end(&self) -> Res
        ensures value { result ≡ count_end self.now }
        ensures node { (source : Res) (field : ℕ → Res) → AreCounted source (map field (members_of source)) self.now
            → result ≡ count_of source field }
    {
        after_verdict(self.verdict.verdict(), Ok(counted(self.found)))
    }
}

/// The number of fields that are true.
fn counted(found: u64) -> Value
    requires { found ≤ 2 ^ 32 }
    ensures { result ≡ Value.Int (pos found) }
{
    Value::Int(Whole::new(found as i64).unwrap())
}
