// Adding relations to a table, finding them by name and running them by place.
ghost use Rattle.std.specs.Prelude.{◌≡◌, ◌↔◌, ◌+◌, ◌-◌, ◌<◌, ◌^◌, ◌∷◌, [], ◌++◌, Bool, OnOk, OnErr, IsErrOf, IsSome, IfSome, length, slice_get, option_map};
ghost use Rattle.std.specs.Option.{option_copied};
ghost use Rattle.text_checks.specs.Places.{place_of};
ghost use Rattle.fact_watch.specs.Says.{IsCode, watch_says};
ghost use Rattle.fact_watch.specs.Tables.{named_relations};

use crate::relation::{Relation, Says, WatchTable};
use fact_paths::Name;
use std::alloc::Global;
use three_state::Res;

/// Why a relation wasn't added.
#[derive(Clone, Copy, Debug, PartialEq, Eq)]
pub enum TableFault {
    /// The table has a relation of this name.
    Same,
    NoMemory,
}

impl WatchTable {
    /// No relation is there.
    pub fn new(alloc: Global) -> WatchTable
        ensures { result.relations.items ≡ [] }
    {
        WatchTable {
            relations: Vec::new(alloc),
        }
    }

    /// Adds a relation under a name that isn't there. The closure has to answer as `watch_says` does for the code, from 1 to 4.
    pub fn add(&mut self, name: Name, code: u32, says: Says) -> Result<(), TableFault>
        requires room { length self.old.relations.items < 2 ^ 32 - 1 }
        requires code { IsCode code }
        requires callable { (old : _) (new : _) → Says.pre says old new }
        requires answers { (old : _) (new : _) (answer : Bool) → Says.post says old new answer → answer
            ≡ watch_says code old.now new.now }
        ensures added { OnOk result (named_relations self.new
            ≡ named_relations self.old ++ (name, code) ∷ []) }
        ensures count { OnOk result (length self.new.relations.items ≡ length self.old.relations.items + 1) }
        ensures same { IsErrOf result TableFault.Same ↔ IsSome (place_of self.old.relations.items (λ r. r.name) name) }
        ensures unchanged { OnErr result (self.new.relations.items ≡ self.old.relations.items) }
    {
        if self.find(name.as_str()).is_some() {
            return Err(TableFault::Same);
        }
        match self.relations.push(Relation::new(name, code, says)) {
            Ok(()) => Ok(()),
            Err(_) => Err(TableFault::NoMemory),
        }
    }

    /// The place of the relation of this name, from 0.
    pub fn find(&self, name: &str) -> Option<u32>
        ensures { result ≡ place_of self.now.relations.items (λ r. r.name) name.now }
    {
        for (place, relation) in self.relations.iter().enumerate() {
            if relation.name.as_str() == name {
                return Some(place as u32);
            }
        }
        None
    }

    /// How many relations are there.
    pub fn len(&self) -> u32
        ensures { result ≡ length self.now.relations.items }
    {
        self.relations.len() as u32
    }

    /// The name of the relation at the place, from 0, or `None` where there is none.
    pub fn name(&self, place: u32) -> Option<&Name>
        ensures { option_copied result ≡ option_map (λ r. r.name) (slice_get self.now.relations.items place) }
    {
        match self.relations.get(place as usize) {
            Some(relation) => Some(&relation.name),
            None => None,
        }
    }

    /// The code of the relation at the place, from 0, or `None` where there is none.
    pub fn code(&self, place: u32) -> Option<u32>
        ensures { result ≡ option_map (λ r. r.code) (slice_get self.now.relations.items place) }
    {
        match self.relations.get(place as usize) {
            Some(relation) => Some(relation.code),
            None => None,
        }
    }

    /// What the relation at the place says of the result before and the one after.
    pub fn run(&self, place: u32, old: &Res, new: &Res) -> bool
        requires { place < length self.now.relations.items }
        ensures { IfSome (slice_get self.now.relations.items place) (λ r. result ≡ watch_says r.code old.now new.now) }
    {
        self.relations[place as usize].run(old, new)
    }
}
