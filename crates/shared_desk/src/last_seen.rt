// What each party of a desk saw last.
ghost use Rattle.std.specs.Prelude.{◌≡◌, ℕ, [], OnErr, OnOk, if◌then◌else◌};
ghost use Rattle.fact_values.specs.declared.slot.Slot.{Slot as OneSlot};
ghost use Rattle.shared_desk.specs.LastSeen.{key_of, look_in, same_key};

use fact_values::{NoMemory, Slot};
use indexmap::IndexMap;
use std::alloc::Global;
use std::marker::Model;

/// How many changes had been made when a party last asked for a slot, for those that it asked for.
#[derive(Drop)]
pub struct LastSeen {
    kept: IndexMap<(u32, (u32, u32)), u64>,
}

impl Model for LastSeen {
    ghost use Rattle.std.specs.Prelude.{ℕ, List};
    ghost use Rattle.shared_desk.specs.LastSeen.{Key};

    ghost Value = { List (Key × ℕ) };

    ghost view = { λ l. l.kept.entries };
}

impl LastSeen {
    /// Nobody asked.
    pub fn new(alloc: Global) -> LastSeen
        ensures { result ≡ [] }
    {
        LastSeen {
            kept: IndexMap::new(alloc),
        }
    }

    /// The number of changes at the party's last look at the slot, and 0 if it never looked.
    pub fn at(&self, party: u32, slot: Slot) -> u64
        ensures { result ≡ look_in self.now party slot }
    {
        match self.kept.get(&(party, (slot.fact, slot.member))) {
            Some(number) => *number,
            None => 0,
        }
    }

    /// Notes a look.
    pub fn put(&mut self, party: u32, slot: Slot, number: u64) -> Result<(), NoMemory>
        ensures put { OnOk result ((p : ℕ) (s : OneSlot) → look_in self.new p s
            ≡ (if same_key (key_of party slot) (key_of p s) then number else look_in self.old p s)) }
        ensures unchanged { OnErr result (self.new ≡ self.old) }
    {
        match self.kept.insert((party, (slot.fact, slot.member)), number) {
            Ok(_) => Ok(()),
            Err(_) => Err(NoMemory),
        }
    }
}
