// The cells of slots that are found by their fact and their member, and the room for new ones.
ghost use Rattle.std.specs.Prelude.{◌≡◌, ◌-◌, ◌<◌, ◌≤◌, None, max, is_some, if◌then◌else◌, option_map, option_copied, OnErr, OnOk, IsOk};
ghost use Rattle.std.specs.FinMap as map;
ghost use Rattle.cell_store.specs.Contents.{has_other, no_cells};
ghost use Rattle.cell_store.specs.declared.cell.Cell.{Cell};

use crate::cell::{Cell, Displaced};
use fact_values::{NoMemory, Slot};
use slab::Slab;
use std::alloc::Global;
use std::collections::HashMap;
use std::marker::Model;
use std::mem;
use three_state::Res;

/// A cell at each slot of some, each in a place of its own, and for how many new slots of any kind
/// there is room.
#[derive(Drop)]
pub struct Placed {
    /// The place of each slot's cell, by its fact and its member.
    places: HashMap<(u32, u32), usize>,
    cells: Slab<Cell>,
    room: u32,
}

impl Model for Placed {
    ghost use Rattle.cell_store.specs.Contents.{Contents, contents_code};

    ghost Value = { Contents };

    ghost coded = { contents_code };

    ghost use Rattle.cell_store.specs.Places.{contents, IsSound};

    ghost view = { contents };

    ghost invariant = { IsSound };
}

impl Placed {
    /// No slot has a cell, and there is no room.
    pub fn new(alloc: Global) -> Placed
        ensures cells { result.cells ≡ no_cells }
        ensures room { result.room ≡ 0 }
    {
        Placed {
            places: HashMap::new(alloc),
            cells: Slab::new(alloc),
            room: 0,
        }
    }

    /// Makes room for this many new slots. Mostly there is.
    #[inline(always)]
    pub fn reserve(&mut self, n: u32) -> Result<(), NoMemory>
        ensures ok { OnOk result (self.new ≡ record self.old { room = max self.old.room n }) }
        ensures err { OnErr result (self.new ≡ self.old) }
        ensures has_room { n ≤ self.old.room → IsOk result }
    {
        if n <= self.room {
            return Ok(());
        }
        self.make_room(n)
    }

    // The same where there isn't as much yet.
    #[inline(never)]
    fn make_room(&mut self, n: u32) -> Result<(), NoMemory>
        requires { self.old.room < n }
        ensures ok { OnOk result (self.new ≡ record self.old { room = max self.old.room n }) }
        ensures err { OnErr result (self.new ≡ self.old) }
    {
        self.places.reserve(n as usize)?;
        self.cells.reserve(n as usize)?;
        self.room = n;
        Ok(())
    }

    /// Gives up the room for one new slot, whose cell is kept elsewhere.
    pub fn use_room(&mut self)
        requires { 0 < self.old.room }
        ensures { self.new ≡ record self.old { room = self.old.room - 1 } }
    {
        self.room -= 1;
    }

    /// Puts a cell at a slot, and hands back the one that was there, and whether its result was another. It takes no memory.
    pub fn put(&mut self, slot: Slot, res: Res, stamp: u64) -> Displaced
        requires { map.get self.old.cells slot ≡ None → 0 < self.old.room }
        ensures cell { result.cell ≡ map.get self.old.cells slot }
        ensures moved { result.moved ≡ has_other (map.get self.old.cells slot) res }
        ensures cells { self.new.cells
            ≡ map.insert self.old.cells slot (record { res = res; stamp = stamp }) }
        ensures room { self.new.room
            ≡ (if is_some result.cell then self.old.room else self.old.room - 1) }
    {
        let key = (slot.fact, slot.member);
        match self.places.get(&key) {
            Some(place) => {
                let place = *place;
                let moved = self.cells[place].is_other(&res);
                let old = mem::replace(&mut self.cells[place], Cell { res, stamp });
                Displaced {
                    cell: Some(old),
                    moved,
                }
            }
            None => {
                let place = self.cells.insert_reserved(Cell { res, stamp });
                let _ = self.places.insert(key, place);
                self.room -= 1;
                Displaced {
                    cell: None,
                    moved: false,
                }
            }
        }
    }

    /// Takes the cell of a slot away, and hands back the result that was there.
    pub fn take(&mut self, slot: Slot) -> Option<Res>
        ensures old { result ≡ option_map (λ c. c.res) (map.get self.old.cells slot) }
        ensures new { self.new ≡ record self.old { cells = map.remove self.old.cells slot } }
    {
        match self.places.remove(&(slot.fact, slot.member)) {
            Some(place) => Some(self.cells.remove(place).res),
            None => None,
        }
    }

    /// The cell of a slot. It stands apart from the look-up of global facts, which is the more frequent by far and the shorter.
    #[inline(never)]
    #[tactic(auto, using(crate::proofs::PlaceLaws::get_cells_at))]
    pub fn cell(&self, slot: Slot) -> Option<&Cell>
        ensures { option_copied result ≡ map.get self.now.cells slot }
    {
        match self.places.get(&(slot.fact, slot.member)) {
            Some(place) => self.cells.get(*place),
            None => None,
        }
    }
}
