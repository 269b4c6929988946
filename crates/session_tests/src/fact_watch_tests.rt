//! Tests of the watches of `fact_watch`.
use crate::begun::{begin, obey};
use crate::relation_tests::one;
use fact_values::{NoMemory, Slot};
use fact_watch::{WatchTable, Watches};
use graph_session::Session;
use plain_table::PlainTable;
use std::alloc::Global;
use std::test::Fail;

const DICTIONARY: &str = r#"{"version":"1","facts":[{"path":"/t","writable":"Text"}]}"#;

const TEXT: Slot = Slot { fact: 1, member: 0 };

// No such slot stands.
const NOTHING: Slot = Slot { fact: 7, member: 0 };

// Two watches, at the places 0 and 1: none where memory is wanting.
fn two(alloc: Global) -> Option<Watches> {
    let mut watches = Watches::new(alloc);
    if watches.put(0, NOTHING).is_ok() && watches.put(0, TEXT).is_ok() {
        Some(watches)
    } else {
        drop(watches);
        None
    }
}

fn has_two(watches: &Watches) -> bool {
    watches.len() == 2
        && watches.at(0) == Some((0, NOTHING))
        && watches.at(1) == Some((0, TEXT))
        && watches.at(2).is_none()
}

fn stand_in_order(alloc: Global) -> Option<bool> {
    match two(alloc) {
        Some(watches) => {
            let stand = has_two(&watches);
            drop(watches);
            Some(stand)
        }
        None => None,
    }
}

#[test]
fn watches_stand_in_the_order_in_which_they_were_put(rt: HostRuntime) -> Result<(), Fail> {
    let stand = stand_in_order(rt.alloc()).ok_or("no memory")?;
    assert!(rt; stand);
    Ok(())
}

// Two watches that have noted the results of a session.
fn noted(alloc: Global, session: &Session<PlainTable>) -> Option<Watches> {
    let mut watches = two(alloc)?;
    match watches.note(session) {
        Ok(()) => Some(watches),
        Err(NoMemory) => {
            drop(watches);
            None
        }
    }
}

fn fires(watches: &Watches, table: &WatchTable, session: &Session<PlainTable>, n: u32) -> bool {
    match watches.at(n) {
        Some(watch) => watch.0 < table.len() && watches.fires(table, session, n),
        None => false,
    }
}

// Of the two watches the one on the text.
fn only_the_second_fires(
    watches: &Watches,
    table: &WatchTable,
    session: &Session<PlainTable>,
) -> bool {
    !fires(watches, table, session, 0) && fires(watches, table, session, 1)
}

// For want of memory the notes are as before, and the watch on the text fires as it did.
fn is_noted_anew(watches: &mut Watches, table: &WatchTable, session: &Session<PlainTable>) -> bool {
    match watches.note(session) {
        Ok(()) => !fires(watches, table, session, 1),
        Err(NoMemory) => fires(watches, table, session, 1),
    }
}

// Whether a watch fires once its slot has moved, and no more behind the next note.
fn fires_once(watches: &mut Watches, table: &WatchTable, session: &Session<PlainTable>) -> bool {
    only_the_second_fires(watches, table, session) && is_noted_anew(watches, table, session)
}

// The same, over a session that moves: none where memory is wanting.
fn fires_behind_a_move(
    alloc: Global,
    watches: &mut Watches,
    table: &WatchTable,
    session: &mut Session<PlainTable>,
) -> Option<bool> {
    obey(alloc, session, "set /t abc")?;
    Some(fires_once(watches, table, session))
}

fn fires_when_moved(
    alloc: Global,
    table: &WatchTable,
    session: &mut Session<PlainTable>,
) -> Option<bool> {
    match noted(alloc, session) {
        Some(mut watches) => {
            let fires = fires_behind_a_move(alloc, &mut watches, table, session);
            drop(watches);
            fires
        }
        None => None,
    }
}

fn fires_by(alloc: Global, table: &WatchTable) -> Option<bool> {
    match begin(alloc, DICTIONARY) {
        Some(mut session) => {
            let fires = fires_when_moved(alloc, table, &mut session);
            drop(session);
            fires
        }
        None => None,
    }
}

fn fires_by_one(alloc: Global) -> Option<bool> {
    match one(alloc) {
        Some(table) => {
            let fires = fires_by(alloc, &table);
            drop(table);
            fires
        }
        None => None,
    }
}

#[test]
fn a_watch_fires_where_its_slot_has_moved_since_the_note(rt: HostRuntime) -> Result<(), Fail> {
    let fires = fires_by_one(rt.alloc()).ok_or("no memory")?;
    assert!(rt; fires);
    Ok(())
}
