// The types, constants and limits of a dictionary.
ghost use Rattle.std.specs.Prelude.{◌≡◌, option_and_then, option_copied, option_map, slice_get, Some};
ghost use Rattle.dict_types.specs.Typed.{IsThere, constant_at, numbered};

use crate::limit::Limit;
use fact_values::{FactType, Value};
use std::marker::Model;

/// A fact's type, and the values of the constants among its nodes.
#[derive(Drop)]
pub struct TypedFact {
    stated: FactType,
    constants: Vec<Option<Value>>,
}

impl Model for TypedFact {
    ghost use Rattle.dict_types.specs.TypedParts.{TypedFact as Parts};

    ghost Value = { Parts };

    ghost view = { λ t. record { stated = t.stated; constants = t.constants.items } };
}

/// The limits of a fact.
#[derive(Drop)]
pub struct Limits {
    list: Vec<Limit>,
}

impl Model for Limits {
    ghost use Rattle.std.specs.Prelude.{List};
    ghost use Rattle.dict_types.specs.declared.limit.Limit.{Limit as Bound};

    ghost Value = { List Bound };

    ghost view = { λ l. l.list.items };
}

/// The types, constants and limits of a dictionary's facts.
#[derive(Drop)]
pub struct Typed {
    facts: Vec<TypedFact>,
    limits: Vec<Limits>,
}

impl Model for Typed {
    ghost use Rattle.dict_types.specs.TypedParts.{TypedDictionary};

    ghost Value = { TypedDictionary };

    ghost view = { λ t. record { facts = t.facts.items; limits = t.limits.items } };
}

fn value_in(value: &Option<Value>) -> Option<&Value>
    ensures { option_copied result ≡ value.now }
{
    match value {
        None => None,
        Some(value) => Some(value),
    }
}

impl TypedFact {
    pub(crate) fn new(stated: FactType, constants: Vec<Option<Value>>) -> TypedFact
        ensures { result ≡ record { stated = stated; constants = constants.items } }
    {
        TypedFact { stated, constants }
    }

    fn stated(&self) -> FactType
        ensures { result ≡ self.now.stated }
    {
        self.stated
    }

    fn node_value(&self, index: usize) -> Option<&Value>
        ensures { option_copied result ≡ option_and_then (λ v. v) (slice_get self.now.constants index) }
    {
        match self.constants.get(index) {
            None => None,
            Some(value) => value_in(value),
        }
    }

    fn constant(&self, node: u32) -> Option<&Value>
        ensures { option_copied result ≡ option_and_then (λ v. v) (numbered self.now.constants node) }
    {
        if node == 0 {
            return None;
        }
        self.node_value(node as usize - 1)
    }
}

impl Limits {
    pub(crate) fn new(list: Vec<Limit>) -> Limits
        ensures { result ≡ list.items }
    {
        Limits { list }
    }

    fn list(&self) -> &[Limit]
        ensures { result.now ≡ self.now }
    {
        self.list.as_slice()
    }
}

impl Typed {
    pub(crate) fn new(facts: Vec<TypedFact>, limits: Vec<Limits>) -> Typed
        ensures { result ≡ record { facts = facts.items; limits = limits.items } }
    {
        Typed { facts, limits }
    }

    /// The type of the fact with this number.
    pub fn fact_type(&self, fact: u32) -> FactType
        requires { IsThere self.now.facts fact }
        ensures { option_map (λ t. t.stated) (numbered self.now.facts fact) ≡ Some result }
    {
        self.facts[fact as usize - 1].stated()
    }

    fn fact(&self, fact: u32) -> Option<&TypedFact>
        ensures { option_copied result ≡ numbered self.now.facts fact }
    {
        if fact == 0 {
            return None;
        }
        self.facts.get(fact as usize - 1)
    }

    /// The value of the node with this number in this fact, where it is a constant.
    pub fn constant(&self, fact: u32, node: u32) -> Option<&Value>
        ensures { option_copied result ≡ constant_at self.now.facts fact node }
    {
        match self.fact(fact) {
            None => None,
            Some(found) => found.constant(node),
        }
    }

    /// The limits of the fact with this number.
    pub fn limits(&self, fact: u32) -> &[Limit]
        requires { IsThere self.now.limits fact }
        ensures { numbered self.now.limits fact ≡ Some result.now }
    {
        self.limits[fact as usize - 1].list()
    }
}
