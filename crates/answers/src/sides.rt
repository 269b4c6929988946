// An answer and an override for each fact, kept by the number of the fact.
ghost use Rattle.std.specs.Prelude.{◌≡◌, ℕ, [], Option, Some, None, IfOk, OnOk, OnErr, IfErr, IsOk, IsSome, option_copied};
ghost use Rattle.std.specs.FinMap as map;
ghost use Rattle.answers.specs.Answered.{blank, of_side};
ghost use Rattle.answers.specs.Change.{with_value};
ghost use Rattle.answers.specs.Meaning.{entry_in, side_of};
ghost use Rattle.answers.specs.Room.{HasSides};

use crate::edit::Side;
use fact_values::{NoMemory, Value};
use indexmap::IndexMap;
use std::alloc::Global;
use std::mem;

/// What stands at a slot: both sides of it.
#[derive(Drop)]
pub struct Sides {
    answer: Option<Value>,
    overriding: Option<Value>,
}

/// What stands at each fact. A fact where nothing stands any more keeps its place.
#[derive(Drop)]
pub struct SidesByFact {
    by_fact: IndexMap<u32, Sides>,
}

impl Sides {
    fn only(side: Side, value: Value) -> Sides
        ensures value { side_of side result ≡ Some value }
        ensures other { (q : Side) → (q ≡ side → ⊥) → side_of q result ≡ None }
    {
        match side {
            Side::Answer => Sides {
                answer: Some(value),
                overriding: None,
            },
            Side::Override => Sides {
                answer: None,
                overriding: Some(value),
            },
        }
    }

    fn standing(&self, side: Side) -> Option<&Value>
        ensures { option_copied result ≡ side_of side self.now }
    {
        match side {
            Side::Answer => self.answer.as_ref(),
            Side::Override => self.overriding.as_ref(),
        }
    }

    fn replace(&mut self, side: Side, value: Option<Value>) -> Option<Value>
        ensures old { result ≡ side_of side self.old }
        ensures value { side_of side self.new ≡ value }
        ensures other { (q : Side) → (q ≡ side → ⊥) → side_of q self.new ≡ side_of q self.old }
    {
        match side {
            Side::Answer => mem::replace(&mut self.answer, value),
            Side::Override => mem::replace(&mut self.overriding, value),
        }
    }
}

impl SidesByFact {
    /// A value at one fact. For want of memory it comes back.
    pub fn with_first(
        alloc: Global,
        side: Side,
        fact: u32,
        value: Value,
    ) -> Result<Box<SidesByFact>, Option<Value>>
        ensures new { IfOk result (λ p. entry_in p.value.by_fact.entries ≡ with_value side fact (Some value) blank) }
        ensures place { IfOk result (λ p. HasSides p.value.by_fact.entries fact) }
        ensures value_returned { IfErr result (λ v. v ≡ Some value) }
    {
        match SidesByFact::empty(alloc) {
            Ok(mut by_fact) => match by_fact.put_first(side, fact, value) {
                Ok(_) => Ok(by_fact),
                Err(value) => {
                    drop(by_fact);
                    Err(value)
                }
            },
            Err(NoMemory) => Err(Some(value)),
        }
    }

    fn empty(alloc: Global) -> Result<Box<SidesByFact>, NoMemory>
        ensures { IfOk result (λ p. p.value.by_fact.entries ≡ []) }
    {
        let by_fact = IndexMap::new(alloc);
        match Box::new(alloc, SidesByFact { by_fact }) {
            Ok(sides) => Ok(sides),
            Err(_) => Err(NoMemory),
        }
    }

    /// The value that stands at a fact.
    pub fn get(&self, side: Side, fact: u32) -> Option<&Value>
        ensures { option_copied result ≡ map.get (of_side side (entry_in self.now.by_fact.entries)) fact }
    {
        match self.by_fact.get(&fact) {
            Some(sides) => sides.standing(side),
            None => None,
        }
    }

    /// Puts a value at a fact, or takes it away, and hands back the one before.
    pub fn put(
        &mut self,
        side: Side,
        fact: u32,
        value: Option<Value>,
    ) -> Result<Option<Value>, Option<Value>>
        ensures old { IfOk result (λ old. old ≡ map.get (of_side side (entry_in self.old.by_fact.entries)) fact) }
        ensures new { OnOk result (entry_in self.new.by_fact.entries ≡ with_value side fact value
            (entry_in self.old.by_fact.entries)) }
        ensures err { OnErr result (entry_in self.new.by_fact.entries ≡ entry_in self.old.by_fact.entries) }
        ensures value_returned { IfErr result (λ v. v ≡ value) }
        ensures room { HasSides self.old.by_fact.entries fact → IsOk result }
        ensures clearing { value ≡ None → IsOk result }
        ensures place { IsSome value → OnOk result (HasSides self.new.by_fact.entries fact) }
        ensures places { (k : ℕ) → HasSides self.old.by_fact.entries k → HasSides self.new.by_fact.entries k }
    {
        match self.by_fact.get_mut(&fact) {
            Some(sides) => Ok(sides.replace(side, value)),
            None => match value {
                Some(value) => self.put_first(side, fact, value),
                None => Ok(None),
            },
        }
    }

    /// Puts a value at a fact where none has stood. For want of memory it comes back.
    fn put_first(
        &mut self,
        side: Side,
        fact: u32,
        value: Value,
    ) -> Result<Option<Value>, Option<Value>>
        requires { HasSides self.old.by_fact.entries fact → ⊥ }
        ensures old { IfOk result (λ old. old ≡ None) }
        ensures new { OnOk result (entry_in self.new.by_fact.entries ≡ with_value side fact (Some value)
            (entry_in self.old.by_fact.entries)) }
        ensures err { OnErr result (entry_in self.new.by_fact.entries ≡ entry_in self.old.by_fact.entries) }
        ensures value_returned { IfErr result (λ v. v ≡ Some value) }
        ensures place { OnOk result (HasSides self.new.by_fact.entries fact) }
        ensures places { (k : ℕ) → HasSides self.old.by_fact.entries k → HasSides self.new.by_fact.entries k }
    {
        match self.by_fact.insert(fact, Sides::only(side, value)) {
            Ok(old) => {
                drop(old);
                Ok(None)
            }
            Err(failed) => {
                let mut sides = failed.value.1;
                let value = sides.replace(side, None);
                drop(sides);
                Err(value)
            }
        }
    }
}
