//! Tests of the relations of `fact_watch`, each of two results of all kinds, and of a table of them.
ghost use Rattle.std.specs.Prelude.{◌≡◌, Bool};
ghost use Rattle.fact_watch.specs.Says.{watch_says};

use fact_paths::Name;
use fact_values::{Dollar, Value, ValueFault, Whole};
use fact_watch::{Says, TableFault, WatchTable, changed, completed, lost, raised};
use std::alloc::Global;
use std::test::Fail;
use three_state::Res;

const NAME: &str = "changed";

// Adds the relation `changed` to a table that has few.
fn add(alloc: Global, table: &mut WatchTable, says: Says) -> Option<TableFault>
    requires callable { (old : _) (new : _) → Says.pre says old new }
    requires answers { (old : _) (new : _) (answer : Bool)
        → Says.post says old new answer → answer ≡ watch_says 1 old.now new.now }
{
    if table.len() > 9 {
        return Some(TableFault::NoMemory);
    }
    match Name::read(alloc, NAME) {
        Ok(name) => table.add(name, 1, says).err(),
        Err(_) => Some(TableFault::NoMemory),
    }
}

fn add_changed(alloc: Global, table: &mut WatchTable) -> Option<TableFault> {
    let says = Box::new(
        alloc,
        |old: &Res, new: &Res| -> bool
            ensures { result ≡ watch_says 1 old.now new.now }
        { changed(old, new) },
    );
    match says {
        Ok(says) => add(alloc, table, says),
        Err(_) => Some(TableFault::NoMemory),
    }
}

/// A table with one relation, that a result has changed: none where memory is wanting.
pub fn one(alloc: Global) -> Option<WatchTable> {
    let mut table = WatchTable::new(alloc);
    match add_changed(alloc, &mut table) {
        None => Some(table),
        Some(_) => {
            drop(table);
            None
        }
    }
}

fn has_name(table: &WatchTable, place: u32) -> bool {
    match table.name(place) {
        Some(found) => found.as_str() == NAME,
        None => false,
    }
}

fn has_one(table: &WatchTable) -> bool {
    table.len() == 1
        && table.find(NAME) == Some(0)
        && has_name(table, 0)
        && table.code(0) == Some(1)
}

fn has_no_other(table: &WatchTable) -> bool {
    table.find("change").is_none() && table.name(1).is_none() && table.code(1).is_none()
}

// Whether a relation isn't added anew under its name: none where memory is wanting.
fn is_added_once(alloc: Global, table: &mut WatchTable) -> Option<bool> {
    match add_changed(alloc, table) {
        None => Some(false),
        Some(TableFault::Same) => Some(has_one(table) && has_no_other(table)),
        Some(TableFault::NoMemory) => None,
    }
}

fn is_added_once_to_one(alloc: Global) -> Option<bool> {
    match one(alloc) {
        Some(mut table) => {
            let is_once = is_added_once(alloc, &mut table);
            drop(table);
            is_once
        }
        None => None,
    }
}

#[test]
fn a_name_is_added_once(rt: HostRuntime) -> Result<(), Fail> {
    let is_once = is_added_once_to_one(rt.alloc()).ok_or("no memory")?;
    assert!(rt; is_once);
    Ok(())
}

fn whole(n: i64) -> Value {
    match Whole::new(n) {
        Some(n) => Value::Int(n),
        None => Value::Item(0),
    }
}

fn amount(cents: i64) -> Value {
    match Dollar::new(cents) {
        Some(amount) => Value::Dollar(amount),
        None => Value::Item(0),
    }
}

const RESULTS: u32 = 12;

// Results of each kind: from 0 to 6 complete ones, 7 and 8 that rest on placeholders, and others.
fn at(n: u32) -> Res {
    match n {
        0 => Res::Complete(whole(1)),
        1 => Res::Complete(whole(2)),
        2 => Res::Complete(amount(1)),
        3 => Res::Complete(amount(2)),
        4 => Res::Complete(Value::Boolean(false)),
        5 => Res::Complete(Value::Boolean(true)),
        6 => Res::Complete(Value::Item(1)),
        7 => Res::Placeholder(whole(1)),
        8 => Res::Placeholder(whole(2)),
        9 => Res::Incomplete,
        10 => Res::Fault(ValueFault::Overflow),
        _ => Res::Fault(ValueFault::ZeroDivide),
    }
}

// What the relation at the place is to say of two of these.
fn due(place: u32, old: u32, new: u32) -> bool {
    match place {
        0 => old != new,
        1 => old > 6 && new <= 6,
        2 => old <= 6 && new > 6,
        _ => (old == 0 && new == 1) || (old == 2 && new == 3),
    }
}

fn said(place: u32, old: &Res, new: &Res) -> bool {
    match place {
        0 => changed(old, new),
        1 => completed(old, new),
        2 => lost(old, new),
        _ => raised(old, new),
    }
}

fn said_of(place: u32, old: &Res, new: u32) -> bool {
    let new = at(new);
    let said = said(place, old, &new);
    drop(new);
    said
}

// Whether the relation says of the results and each other one what it is to say.
fn says_what_is_due_of(place: u32, old: u32, res: &Res) -> bool {
    for new in 0..RESULTS {
        if said_of(place, res, new) != due(place, old, new) {
            return false;
        }
    }
    true
}

fn says_what_is_due(place: u32, old: u32) -> bool {
    let res = at(old);
    let is_due = says_what_is_due_of(place, old, &res);
    drop(res);
    is_due
}

#[test]
fn relations_say_what_is_due_of_all_pairs_of_results(rt: HostRuntime) {
    for place in 0..4 {
        for old in 0..RESULTS {
            assert!(rt; says_what_is_due(place, old), "at {place}, {old}");
        }
    }
}
