//! Tests of `cell_store`: a store with room for two slots, filled, emptied and filled again. It is
//! made for no facts, or for those whose global fact's cell is found by its number.
ghost use Rattle.std.specs.Prelude.{◌≡◌, ◌<◌, IsTrue, None};
ghost use Rattle.std.specs.FinMap as map;

use cell_store::{Cell, Displaced, Store};
use fact_values::{Dollar, Slot, Value, ValueFault, Whole};
use std::alloc::Global;
use three_state::Res;

const WHOLE: Slot = Slot { fact: 3, member: 0 };

const FIRST: Slot = Slot { fact: 4, member: 1 };

const SECOND: Slot = Slot { fact: 4, member: 2 };

fn has_place(store: &mut Store, slot: Slot) -> bool
    ensures { IsTrue result → map.get store.new.cells slot ≡ None → 0 < store.new.room }
{
    if store.get(slot).is_some() {
        return true;
    }
    store.reserve(1).is_ok()
}

fn put(store: &mut Store, slot: Slot, res: Res, stamp: u64) -> Displaced {
    if !has_place(store, slot) {
        return Displaced {
            cell: Some(Cell { res, stamp }),
            moved: false,
        };
    }
    store.put(slot, res, stamp)
}

// Whether nothing stood at the slot.
fn is_new(store: &mut Store, slot: Slot, stamp: u64) -> bool {
    put(store, slot, Res::Incomplete, stamp).cell.is_none()
}

fn is_taken(store: &mut Store, slot: Slot) -> bool {
    store.take(slot).is_some()
}

fn has_stamps(store: &Store, whole: Option<u64>, first: Option<u64>, second: Option<u64>) -> bool {
    store.stamp(WHOLE) == whole && store.stamp(FIRST) == first && store.stamp(SECOND) == second
}

fn is_filled(store: &mut Store) -> bool {
    is_new(store, FIRST, 1) && is_new(store, SECOND, 2) && has_stamps(store, None, Some(1), Some(2))
}

fn is_emptied(store: &mut Store) -> bool {
    is_taken(store, FIRST)
        && !is_taken(store, FIRST)
        && is_taken(store, SECOND)
        && has_stamps(store, None, None, None)
}

fn is_filled_again(store: &mut Store) -> bool {
    is_new(store, SECOND, 3) && is_new(store, WHOLE, 4) && has_stamps(store, Some(4), None, Some(3))
}

fn is_left_to_members(store: &mut Store) -> bool {
    is_taken(store, WHOLE) && !is_taken(store, WHOLE) && has_stamps(store, None, None, Some(3))
}

fn is_kept(store: &mut Store) -> bool {
    is_filled(store) && is_emptied(store) && is_filled_again(store) && is_left_to_members(store)
}

fn keeps(store: &mut Store) -> bool {
    store.reserve(2).is_ok() && is_kept(store)
}

fn keeps_by_numbers(alloc: Global) -> bool {
    match Store::with_facts(alloc, 3) {
        Ok(mut store) => keeps(&mut store),
        Err(_) => false,
    }
}

#[test]
fn what_is_put_is_found_until_it_is_taken(rt: HostRuntime) {
    assert!(rt; keeps(&mut Store::new(rt.alloc())));
    assert!(rt; keeps_by_numbers(rt.alloc()));
}

fn is_incomplete(cell: &Option<Cell>, stamp: u64) -> bool {
    match cell {
        Some(cell) => matches!(cell.res, Res::Incomplete) && cell.stamp == stamp,
        None => false,
    }
}

// Puts a result over the incomplete one of this stamp, and says whether it moved.
fn moves(store: &mut Store, before: u64, res: Res, stamp: u64) -> bool {
    let old = put(store, WHOLE, res, stamp);
    is_incomplete(&old.cell, before) && old.moved
}

fn hands_back(store: &mut Store) -> bool {
    !moves(store, 1, Res::Incomplete, 7) && moves(store, 7, Res::Fault(ValueFault::Overflow), 2)
}

fn has_the_new(store: &Store) -> bool {
    matches!(store.get(WHOLE), Some(Res::Fault(_))) && store.stamp(WHOLE) == Some(2)
}

fn is_replaced(store: &mut Store) -> bool {
    is_new(store, WHOLE, 1) && hands_back(store) && has_the_new(store)
}

fn replaces_by_numbers(alloc: Global) -> bool {
    match Store::with_facts(alloc, 3) {
        Ok(mut store) => is_replaced(&mut store),
        Err(_) => false,
    }
}

#[test]
fn a_put_hands_the_old_cell_back(rt: HostRuntime) {
    assert!(rt; is_replaced(&mut Store::new(rt.alloc())));
    assert!(rt; replaces_by_numbers(rt.alloc()));
}

fn amount(cents: i64) -> Res {
    match Dollar::new(cents) {
        Some(amount) => Res::Complete(Value::Dollar(amount)),
        None => Res::Incomplete,
    }
}

fn number(n: i64) -> Res {
    match Whole::new(n) {
        Some(n) => Res::Complete(Value::Int(n)),
        None => Res::Incomplete,
    }
}

// Whether the store gives these numbers for a result that was put.
fn gives(store: &mut Store, res: Res, cents: Option<i64>, whole: Option<i64>) -> bool {
    let _ = put(store, WHOLE, res, 1);
    store.amount(WHOLE.fact).map(|a| a.cents()) == cents
        && store.whole(WHOLE.fact).map(|n| n.get()) == whole
}

fn gives_numbers(store: &mut Store) -> bool {
    gives(store, amount(250), Some(250), None)
        && gives(store, number(7), None, Some(7))
        && gives(store, Res::Incomplete, None, None)
}

fn gives_numbers_of_a_column(alloc: Global) -> bool {
    match Store::with_facts(alloc, 3) {
        Ok(mut store) => gives_numbers(&mut store),
        Err(_) => false,
    }
}

#[test]
fn a_complete_number_is_read_by_its_fact(rt: HostRuntime) {
    assert!(rt; gives_numbers(&mut Store::new(rt.alloc())));
    assert!(rt; gives_numbers_of_a_column(rt.alloc()));
}
