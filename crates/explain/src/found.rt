// The slots that a walk has found.
ghost use Rattle.std.specs.Prelude.{◌≡◌, ◌||◌, [], ◌∷◌, ◌++◌, false, not, if◌then◌else◌, IfOk, OnOk};
ghost use Rattle.fact_values.specs.declared.slot.Slot.{Slot};
ghost use Rattle.dict_meaning.specs.Slots.{slot_same};

use fact_values::{NoMemory, Slot};
use std::alloc::Global;
use std::collections::HashSet;

/// Slots, each once, by their facts and members.
#[derive(Drop)]
pub struct Found {
    keys: HashSet<(u32, u32)>,
}

impl Found {
    ghost use Rattle.explain.specs.Found.{has};

    /// None is found.
    pub fn new(alloc: Global) -> Found
        ensures { (s : Slot) → has result s ≡ false }
    {
        Found {
            keys: HashSet::new(alloc),
        }
    }

    /// Whether the slot is found.
    pub fn has(&self, slot: Slot) -> bool
        ensures { result ≡ has self.now slot }
    {
        self.keys.contains(&(slot.fact, slot.member))
    }

    /// Adds a slot, and tells whether it is new.
    pub fn add(&mut self, slot: Slot) -> Result<bool, NoMemory>
        ensures fresh { IfOk result (λ fresh. fresh ≡ not (has self.old slot)) }
        ensures added { OnOk result ((s : Slot) → has self.new s ≡ (slot_same s slot || has self.old s)) }
    {
        match self.keys.insert((slot.fact, slot.member)) {
            Ok(fresh) => Ok(fresh),
            Err(_) => Err(NoMemory),
        }
    }
}

/// Adds a slot to a list, where it is wanted there.
pub fn push_if(list: &mut Vec<Slot>, wanted: bool, slot: Slot) -> Result<(), NoMemory>
    ensures { OnOk result (list.new.items ≡ (if wanted then list.old.items ++ slot ∷ [] else list.old.items)) }
{
    if !wanted {
        return Ok(());
    }
    list.push(slot)?;
    Ok(())
}
