// The cells of slots: those of global facts by the facts' numbers, and all others in places.
ghost use Rattle.std.specs.Prelude.{◌≡◌, ◌-◌, ◌<◌, ◌≤◌, None, Some, max, is_some, if◌then◌else◌, option_map, option_copied, ◌≢◌, ℤ, IfOk, IfSome, IsNone, OnErr, OnOk, IsOk};
ghost use Rattle.std.specs.FinMap as map;
ghost use Rattle.fact_values.specs.declared.value.Value.TheVariants as value;
ghost use Rattle.three_state.specs.declared.res.Res.TheVariants.{Complete};
ghost use Rattle.cell_store.specs.Contents.{has_other, no_cells, result_of};
ghost use Rattle.cell_store.specs.Numbers.{number_of};
ghost use Rattle.cell_store.specs.declared.cell.Cell.{Cell};

use crate::cell::{Cell, Displaced};
use crate::globals::GlobalCells;
use crate::number::CellNumber;
use crate::placed::Placed;
use fact_values::{Dollar, NoMemory, Slot, Whole};
use std::alloc::Global;
use std::marker::Model;
use three_state::Res;

/// A result and a stamp at each slot of some. Contracts see a finite map from slots to cells, and
/// beside it for how many new slots there is room.
#[derive(Drop)]
pub struct Store {
    /// The cells of global facts.
    globals: GlobalCells,
    /// Those of all other slots, and the room.
    placed: Placed,
}

impl Model for Store {
    ghost use Rattle.cell_store.specs.Contents.{Contents, contents_code};
    ghost use Rattle.cell_store.specs.Globals.{with_globals};

    ghost Value = { Contents };

    ghost coded = { contents_code };

    ghost view = { λ s. record {
      cells = with_globals s.globals s.placed.cells;
      room = s.placed.room;
    } };
}

impl Store {
    /// No slot has a cell, and there is no room. Each cell is found as those of members are.
    #[tactic(auto, using(crate::proofs::GlobalLaws::globals))]
    pub fn new(alloc: Global) -> Store
        ensures cells { result.cells ≡ no_cells }
        ensures room { result.room ≡ 0 }
    {
        Store {
            globals: GlobalCells::new(alloc),
            placed: Placed::new(alloc),
        }
    }

    /// The same for facts that are numbered from 1 to `facts`: the cells of those that stand once are
    /// found by their numbers.
    #[tactic(auto, using(crate::proofs::GlobalLaws::globals))]
    pub fn with_facts(alloc: Global, facts: usize) -> Result<Store, NoMemory>
        ensures cells { IfOk result (λ store. store.cells ≡ no_cells) }
        ensures room { IfOk result (λ store. store.room ≡ 0) }
    {
        Ok(Store {
            globals: GlobalCells::with_facts(alloc, facts)?,
            placed: Placed::new(alloc),
        })
    }

    /// Makes room for this many new slots.
    #[inline(always)]
    pub fn reserve(&mut self, n: u32) -> Result<(), NoMemory>
        ensures ok { OnOk result (self.new ≡ record self.old { room = max self.old.room n }) }
        ensures err { OnErr result (self.new ≡ self.old) }
        ensures has_room { n ≤ self.old.room → IsOk result }
    {
        self.placed.reserve(n)
    }

    /// Puts a cell at a slot, and hands back the one that was there, and whether its result was another. It takes no memory.
    #[inline]
    #[tactic(auto, using(crate::proofs::GlobalLaws::globals))]
    pub fn put(&mut self, slot: Slot, res: Res, stamp: u64) -> Displaced
        requires { map.get self.old.cells slot ≡ None → 0 < self.old.room }
        ensures cell { result.cell ≡ map.get self.old.cells slot }
        ensures moved { result.moved ≡ has_other (map.get self.old.cells slot) res }
        ensures cells { self.new.cells
            ≡ map.insert self.old.cells slot (record { res = res; stamp = stamp }) }
        ensures room { self.new.room
            ≡ (if is_some result.cell then self.old.room else self.old.room - 1) }
    {
        if !self.globals.has(slot) {
            return self.placed.put(slot, res, stamp);
        }
        let displaced = self.globals.put(slot.fact, res, stamp);
        if displaced.cell.is_none() {
            self.placed.use_room();
        }
        displaced
    }

    /// Takes the cell of a slot away, and hands back the result that was there.
    #[tactic(auto, using(crate::proofs::GlobalLaws::globals))]
    pub fn take(&mut self, slot: Slot) -> Option<Res>
        ensures old { result ≡ option_map (λ c. c.res) (map.get self.old.cells slot) }
        ensures new { self.new ≡ record self.old { cells = map.remove self.old.cells slot } }
    {
        if !self.globals.has(slot) {
            return self.placed.take(slot);
        }
        match self.globals.take(slot.fact) {
            Some(old) => Some(old.res),
            None => None,
        }
    }

    /// The result at a slot.
    pub fn get(&self, slot: Slot) -> Option<&Res>
        ensures { option_copied result ≡ option_map (λ c. c.res) (map.get self.now.cells slot) }
    {
        Some(&self.cell(slot)?.res)
    }

    /// The stamp of a slot.
    pub fn stamp(&self, slot: Slot) -> Option<u64>
        ensures { result ≡ option_map (λ c. c.stamp) (map.get self.now.cells slot) }
    {
        Some(self.cell(slot)?.stamp)
    }

    #[tactic(auto, using(crate::proofs::GlobalLaws::globals))]
    fn cell(&self, slot: Slot) -> Option<&Cell>
        ensures { option_copied result ≡ map.get self.now.cells slot }
    {
        if !self.globals.has(slot) {
            return self.placed.cell(slot);
        }
        self.globals.cell(slot.fact)
    }

    /// The result at a global fact, where that is a complete amount of money. It reads no cell.
    #[inline(always)]
    #[tactic(auto, using(crate::proofs::NumberLaws::read))]
    pub fn amount(&self, fact: u32) -> Option<Dollar>
        ensures some { IfSome result (λ cents. result_of self.now.cells fact ≡ Some (Complete (value.Dollar cents))) }
        ensures none { IsNone result → (cents : ℤ) → result_of self.now.cells fact ≢ Some (Complete (value.Dollar cents)) }
    {
        self.number(fact).amount()
    }

    /// The result at a global fact, where that is a complete whole number. It reads no cell.
    #[inline(always)]
    #[tactic(auto, using(crate::proofs::NumberLaws::read))]
    pub fn whole(&self, fact: u32) -> Option<Whole>
        ensures some { IfSome result (λ n. result_of self.now.cells fact ≡ Some (Complete (value.Int n))) }
        ensures none { IsNone result → (n : ℤ) → result_of self.now.cells fact ≢ Some (Complete (value.Int n)) }
    {
        self.number(fact).whole()
    }

    #[inline(always)]
    #[tactic(auto, using(crate::proofs::NumberLaws::found))]
    fn number(&self, fact: u32) -> CellNumber
        ensures { result ≡ number_of (map.get self.now.cells (record { fact = fact; member = 0 })) }
    {
        match self.globals.number(fact) {
            Some(number) => number,
            None => self.cell_number(fact),
        }
    }

    // The same by the cell, for a fact beyond those with numbers.
    #[inline(never)]
    fn cell_number(&self, fact: u32) -> CellNumber
        ensures { result ≡ number_of (map.get self.now.cells (record { fact = fact; member = 0 })) }
    {
        CellNumber::of_cell(self.cell(Slot { fact, member: 0 }))
    }
}
