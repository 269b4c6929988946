//! A test of a desk that begins without answers.
use crate::desk_begun::{Said, begin, is_said};
use fact_values::Slot;
use graph_session::Reply;
use recalc::Recalc;
use shared_desk::{Desk, DeskRefusal};
use std::alloc::Global;
use std::test::Fail;

// Two amounts and their sum.
const SUM: &str =
    r#"{"version":"1","facts":[{"path":"/a","writable":"Dollar"},{"path":"/b","writable":"Dollar"},{"path":"/s","derived":"Dollar","is":["Add",["Dependency","/a"],["Dependency","/b"]]}]}"#;

const A: Slot = Slot { fact: 1, member: 0 };

const S: Slot = Slot { fact: 3, member: 0 };

const DONE: Said = Ok(Reply::Done);

fn waits_for_a_look(alloc: Global, desk: &mut Desk<Recalc>) -> Option<bool> {
    Some(
        is_said(alloc, desk, 1, "set /a 5", &DONE)?
            && is_said(alloc, desk, 2, "set /a 6", &Err(DeskRefusal::Stale(1)))?
            && is_said(alloc, desk, 2, "get /a", &Ok(Reply::Answer(A)))?
            && is_said(alloc, desk, 2, "set /a 6", &DONE)?,
    )
}

// The undo is the third change, and the second party's.
fn waits_for_its_party(alloc: Global, desk: &mut Desk<Recalc>) -> Option<bool> {
    Some(
        is_said(alloc, desk, 1, "get /s", &Ok(Reply::Answer(S)))?
            && is_said(alloc, desk, 1, "undo", &Err(DeskRefusal::NotYours(2)))?
            && is_said(alloc, desk, 2, "undo", &DONE)?
            && is_said(alloc, desk, 1, "set /a 7", &Err(DeskRefusal::Stale(3)))?,
    )
}

fn waits(alloc: Global, desk: &mut Desk<Recalc>) -> Option<bool> {
    Some(waits_for_a_look(alloc, desk)? && waits_for_its_party(alloc, desk)?)
}

// Whether both wait: none where memory is wanting.
fn both_wait(alloc: Global) -> Option<bool> {
    match begin(alloc, SUM) {
        Some(mut desk) => {
            let both_wait = waits(alloc, &mut desk);
            drop(desk);
            both_wait
        }
        None => None,
    }
}

#[test]
fn an_edit_waits_for_a_look_and_an_undo_for_its_party(rt: HostRuntime) -> Result<(), Fail> {
    let both_wait = both_wait(rt.alloc()).ok_or("no memory")?;
    assert!(rt; both_wait);
    Ok(())
}
