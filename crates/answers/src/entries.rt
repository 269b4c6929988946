// The answers and overrides at the facts of one member.
ghost use Rattle.std.specs.Prelude.{◌≡◌, ℕ, Option, Some, None, IfOk, OnOk, OnErr, IfErr, IsOk, IsSome, option_copied};
ghost use Rattle.std.specs.FinMap as map;
ghost use Rattle.answers.specs.Answered.{blank, of_side};
ghost use Rattle.answers.specs.Change.{with_value};
ghost use Rattle.answers.specs.Meaning.{entry_of};
ghost use Rattle.answers.specs.Room.{HasFact};

use crate::edit::Side;
use crate::sides::SidesByFact;
use fact_values::Value;
use std::alloc::Global;

/// The answers and the overrides of one member, or of the facts that stand once. They take memory
/// from the first value on.
#[derive(Drop)]
pub struct Entries {
    alloc: Global,
    kept: Option<Box<SidesByFact>>,
}

impl Entries {
    pub fn new(alloc: Global) -> Entries
        ensures { entry_of result ≡ blank }
    {
        Entries { alloc, kept: None }
    }

    /// The value that stands at a fact.
    pub fn get(&self, side: Side, fact: u32) -> Option<&Value>
        ensures { option_copied result ≡ map.get (of_side side (entry_of self.now)) fact }
    {
        match &self.kept {
            Some(by_fact) => by_fact.get(side, fact),
            None => None,
        }
    }

    /// Puts a value at a fact, or takes it away, and hands back the one before.
    pub fn put(
        &mut self,
        side: Side,
        fact: u32,
        value: Option<Value>,
    ) -> Result<Option<Value>, Option<Value>>
        ensures old { IfOk result (λ old. old ≡ map.get (of_side side (entry_of self.old)) fact) }
        ensures new { OnOk result (entry_of self.new ≡ with_value side fact value (entry_of self.old)) }
        ensures err { OnErr result (entry_of self.new ≡ entry_of self.old) }
        ensures value_returned { IfErr result (λ v. v ≡ value) }
        ensures room { HasFact self.old fact → IsOk result }
        ensures clearing { value ≡ None → IsOk result }
        ensures place { IsSome value → OnOk result (HasFact self.new fact) }
        ensures places { (k : ℕ) → HasFact self.old k → HasFact self.new k }
    {
        match &mut self.kept {
            Some(by_fact) => by_fact.put(side, fact, value),
            None => match value {
                Some(value) => self.put_first(side, fact, value),
                None => Ok(None),
            },
        }
    }

    /// Puts the first value. For want of memory it comes back.
    fn put_first(
        &mut self,
        side: Side,
        fact: u32,
        value: Value,
    ) -> Result<Option<Value>, Option<Value>>
        requires { self.old.kept ≡ None }
        ensures old { IfOk result (λ old. old ≡ None) }
        ensures new { OnOk result (entry_of self.new ≡ with_value side fact (Some value) blank) }
        ensures err { OnErr result (self.new ≡ self.old) }
        ensures value_returned { IfErr result (λ v. v ≡ Some value) }
        ensures place { OnOk result (HasFact self.new fact) }
    {
        match SidesByFact::with_first(self.alloc, side, fact, value) {
            Ok(by_fact) => {
                self.kept = Some(by_fact);
                Ok(None)
            }
            Err(value) => Err(value),
        }
    }
}
