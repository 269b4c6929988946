// The slots that wait, those of the lowest rank first.
ghost use Rattle.std.specs.Prelude.{◌≡◌, ◌≤◌, ◌<◌, ◌^◌, ◌&&◌, ◌||◌, not, false, All, length, IfNone, IfOk, IfSome, IsTrue, OnErr, OnOk};
ghost use Rattle.dirty_slots.specs.Places.{is_at_any};
ghost use Rattle.dirty_slots.specs.Waiting.{dirty_same, waits};
ghost use Rattle.dirty_slots.specs.declared.dirty_slot.DirtySlot.{DirtySlot as OneSlot};

use crate::dirty_slot::DirtySlot;
use crate::place_bits::PlaceBits;
use crate::places::Places;
use crate::unplaced::UnplacedSlots;
use fact_values::NoMemory;
use std::alloc::Global;
use std::marker::Model;
use std::sync::Arc;

/// The slots that wait: of those that have a place a bit for each, and the others in a set. Contracts see the places,
/// and which slots wait, by `waits`.
#[derive(Drop)]
pub struct DirtyQueue {
    places: Arc<Places>,
    placed: PlaceBits,
    unplaced: UnplacedSlots,
}

impl Model for DirtyQueue {
    ghost use Rattle.dirty_slots.specs.Waiting.{Queue};

    ghost Value = { Queue };

    ghost view = { λ queue. record { places = queue.places.value; placed = queue.placed; unplaced = queue.unplaced } };

    ghost use Rattle.std.specs.Prelude.{◌*◌, ◌≤◌, length};

    // Each place has a bit.
    ghost invariant = { λ queue. length queue.places.value ≤ length queue.placed * 64 };
}

impl DirtyQueue {
    /// Nothing waits. Of so many facts, by their numbers from 1, the last slot that was let wait is noted.
    pub fn new(alloc: Global, facts: usize, places: Arc<Places>) -> Result<DirtyQueue, NoMemory>
        requires { facts < 2 ^ 63 }
        ensures none { IfOk result (λ queue. (q : OneSlot) → waits queue q ≡ false) }
        ensures places { IfOk result (λ queue. queue.places ≡ places.value) }
    {
        let placed = PlaceBits::new(alloc, places.len())?;
        let unplaced = UnplacedSlots::new(alloc, facts)?;
        Ok(DirtyQueue {
            places,
            placed,
            unplaced,
        })
    }

    /// Nothing waits any more. It takes no memory.
    pub fn clear(&mut self)
        ensures none { (q : OneSlot) → waits self.new q ≡ false }
        ensures places { self.new.places ≡ self.old.places }
    {
        self.placed.clear();
        self.unplaced.clear();
    }

    /// Lets one more wait, which may wait already.
    #[inline(always)]
    pub fn add(&mut self, dirty: DirtySlot) -> Result<(), NoMemory>
        ensures ok { OnOk result ((q : OneSlot) → waits self.new q ≡ (dirty_same q dirty || waits self.old q)) }
        ensures err { OnErr result ((q : OneSlot) → waits self.new q ≡ waits self.old q) }
        ensures places { self.new.places ≡ self.old.places }
    {
        match self.places.place(dirty) {
            Some(place) => {
                self.placed.insert(place);
                Ok(())
            }
            None => self.unplaced.add(dirty),
        }
    }

    /// Lets the slots at these places wait, of which some may wait already.
    #[inline(always)]
    pub fn add_places(&mut self, places: &[u32])
        requires { All (λ p. p < length self.old.places) places.now }
        ensures added { (q : OneSlot) → waits self.new q
            ≡ (is_at_any self.old.places places.now q || waits self.old q) }
        ensures places { self.new.places ≡ self.old.places }
    {
        self.placed.insert_all(places);
    }

    /// Takes out one of the lowest rank.
    pub fn pop(&mut self) -> Option<DirtySlot>
        ensures none { IfNone result ((q : OneSlot) → waits self.old q ≡ false) }
        ensures unchanged { IfNone result (self.new ≡ self.old) }
        ensures some { IfSome result (λ dirty. IsTrue (waits self.old dirty)) }
        ensures rest { IfSome result (λ dirty. (q : OneSlot)
            → waits self.new q ≡ (waits self.old q && not (dirty_same q dirty))) }
        ensures least { IfSome result (λ dirty. (q : OneSlot)
            → IsTrue (waits self.old q) → dirty.rank ≤ q.rank) }
        ensures places { self.new.places ≡ self.old.places }
    {
        let place = self.placed.first();
        match self.places.slot(place) {
            None => self.unplaced.pop(),
            Some(dirty) => match self.unplaced.pop_below(dirty.rank) {
                Some(lower) => Some(lower),
                None => {
                    self.placed.remove(place);
                    self.unplaced.remove(dirty);
                    Some(dirty)
                }
            },
        }
    }
}
