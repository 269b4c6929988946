// Slots with a place each, in the order in which they are evaluated.
ghost use Rattle.std.specs.Prelude.{◌≡◌, ◌<◌, ◌^◌, ◌++◌, ◌∷◌, [], IfOk, IfSome, IsTrue, length, option_copied, slice_get};
ghost use Rattle.dirty_slots.specs.Places.{AreRising};
ghost use Rattle.dirty_slots.specs.Slots.{is_dirty};

use crate::dirty_slot::DirtySlot;
use fact_values::NoMemory;
use std::alloc::Global;
use std::marker::Model;

/// Slots, each with a place. Contracts see the list of them.
#[derive(Drop)]
pub struct Places {
    slots: Vec<DirtySlot>,
    /// For each fact, by its number, the place of its slot.
    place_of: Vec<usize>,
}

impl Model for Places {
    ghost use Rattle.dirty_slots.specs.Places.{AreRising};
    ghost use Rattle.dirty_slots.specs.Slots.{DirtySlots};

    ghost Value = { DirtySlots };

    ghost view = { λ places. places.slots.items };

    ghost invariant = { λ places. AreRising places.slots.items };
}

impl Places {
    /// No slot has one. A slot may have one of so many facts, by their numbers from 1.
    pub fn new(alloc: Global, facts: usize) -> Result<Places, NoMemory>
        requires { facts < 2 ^ 63 }
        ensures { IfOk result (λ places. places ≡ []) }
    {
        let place_of = vec![in alloc; 0; facts + 1]?;
        Ok(Places {
            slots: Vec::new(alloc),
            place_of,
        })
    }

    /// Gives a slot the next place, if it comes behind all that have one.
    pub fn push(&mut self, slot: DirtySlot) -> Result<(), NoMemory> {
        if !is_behind(&self.slots, slot) {
            return Ok(());
        }
        self.slots.reserve(1)?;
        let place = self.slots.len();
        note(&mut self.place_of, slot.fact, place);
        let _ = self.slots.push(slot);
        Ok(())
    }

    /// How many slots have one.
    pub fn len(&self) -> usize
        ensures len { result ≡ length self.now }
        ensures few { result < 2 ^ 63 }
    {
        self.slots.len()
    }

    /// The slot at a place. What stands at lower places comes before it.
    #[inline(always)]
    pub fn slot(&self, place: usize) -> Option<DirtySlot>
        ensures slot { result ≡ slice_get self.now place }
        ensures rising { AreRising self.now }
    {
        self.slots.get(place).copied()
    }

    /// The place of a slot, if it has one.
    #[inline(always)]
    pub fn place(&self, slot: DirtySlot) -> Option<usize>
        ensures { IfSome result (λ place. IsTrue (is_dirty (slice_get self.now place) slot)) }
    {
        let place = *self.place_of.get(slot.fact as usize)?;
        if is_that(self.slots.get(place), slot) {
            Some(place)
        } else {
            None
        }
    }
}

#[inline(always)]
fn is_that(found: Option<&DirtySlot>, slot: DirtySlot) -> bool
    ensures { result ≡ is_dirty (option_copied found.entry) slot }
{
    match found {
        Some(found) => *found == slot,
        None => false,
    }
}

// Whether a slot comes behind all of these.
fn is_behind(slots: &[DirtySlot], slot: DirtySlot) -> bool
    ensures { IsTrue result → AreRising slots.now → AreRising (slots.now ++ slot ∷ []) }
{
    match slots.last() {
        Some(last) => last.rank < slot.rank || (last.rank == slot.rank && last.fact < slot.fact),
        None => true,
    }
}

fn note(place_of: &mut [usize], fact: u32, place: usize) {
    let fact = fact as usize;
    if fact < place_of.len() {
        place_of[fact] = place;
    }
}
