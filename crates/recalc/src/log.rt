// What a change replaced in a store, from which all is put back.
ghost use Rattle.std.specs.Prelude.{◌≡◌, ◌<◌, ◌++◌, ◌∷◌, [], false, length, IfOk, IsSome, OnErr, OnOk};
ghost use Rattle.std.specs.FinMap as map;
ghost use Rattle.cell_store.specs.Contents.{has_other};
ghost use Rattle.cell_store.specs.Places.{put_at};
ghost use Rattle.recalc.specs.Replacing.{before, CanPutBack, entries, slots_of};
ghost use Rattle.recalc.specs.Spread.{is_in};

use cell_store::{Cell, Displaced, Store};
use fact_values::{NoMemory, Slot};
use std::alloc::Global;
use three_state::Res;

/// What was at a slot: a cell, or none where the slot is new.
#[derive(Drop)]
pub struct Replaced {
    pub slot: Slot,
    pub cell: Option<Cell>,
}

/// What was replaced in a store, the newest last.
#[derive(Drop)]
pub struct Log {
    entries: Vec<Replaced>,
}

impl Log {
    pub fn new(alloc: Global) -> Log
        ensures { entries result ≡ [] }
    {
        Log {
            entries: Vec::new(alloc),
        }
    }

    /// How many cells were replaced.
    pub fn len(&self) -> usize
        ensures { result ≡ length (entries self.now) }
    {
        self.entries.len()
    }

    #[tactic(auto, using(crate::proofs::ReplacingLaws::put_keeps_before, crate::proofs::ReplacingLaws::put_can_be_put_back))]
    /// Puts a cell at a slot, keeps what was there, and says whether that had another result. For want of memory nothing changes.
    pub fn put(
        &mut self,
        store: &mut Store,
        slot: Slot,
        res: Res,
        stamp: u64,
    ) -> Result<bool, NoMemory>
        requires { is_in (slots_of (entries self.old)) slot ≡ false }
        ensures cells { OnOk result (store.new.cells
            ≡ map.insert store.old.cells slot (record { res = res; stamp = stamp })) }
        ensures kept { OnOk result (entries self.new ≡ entries self.old
            ++ record { slot = slot; cell = map.get store.old.cells slot } ∷ []) }
        ensures moved { IfOk result (λ moved. moved ≡ has_other (map.get store.old.cells slot) res) }
        ensures store_unchanged { OnErr result (store.new ≡ store.old) }
        ensures unchanged { OnErr result (entries self.new ≡ entries self.old) }
        ensures undo { before (entries self.new) store.new.cells ≡ before (entries self.old) store.old.cells }
        ensures can { CanPutBack (entries self.old) store.old.cells → CanPutBack (entries self.new) store.new.cells }
    {
        self.entries.reserve(1)?;
        store.reserve(1)?;
        let Displaced { cell, moved } = store.put(slot, res, stamp);
        self.entries.push_reserved(Replaced { slot, cell });
        Ok(moved)
    }

    /// Puts all back as it was, and forgets it. It takes no memory.
    pub fn put_back(&mut self, store: &mut Store)
        requires { CanPutBack (entries self.old) store.old.cells }
        ensures cells { store.new.cells ≡ before (entries self.old) store.old.cells }
        ensures empty { entries self.new ≡ [] }
    {
        while let Some(entry) = self.entries.pop() {
            put_one_back(store, entry);
        }
    }

    /// Forgets what was replaced.
    pub fn clear(&mut self)
        ensures { entries self.new ≡ [] }
    {
        self.entries.clear();
    }
}

fn put_one_back(store: &mut Store, entry: Replaced)
    requires { IsSome (map.get store.old.cells entry.slot) }
    ensures { store.new.cells ≡ put_at store.old.cells entry.slot entry.cell }
{
    let Replaced { slot, cell } = entry;
    match cell {
        Some(cell) => {
            let Cell { res, stamp } = cell;
            let _ = store.put(slot, res, stamp);
        }
        None => {
            let _ = store.take(slot);
        }
    }
}
