//! A test of a session that goes on from given answers. What is given by a saved text is stored cases, over the other engine.
use crate::begun::{accepted, obey};
use crate::given::{SIZED, given_of};
use dictionary::Dictionary;
use fact_values::{NoMemory, Slot, Value};
use graph_session::Session;
use plain_table::PlainTable;
use std::alloc::Global;
use std::test::Fail;
use three_state::Res;

fn session_of(alloc: Global, dict: Dictionary) -> Result<Session<PlainTable>, &'static str> {
    match given_of(alloc, &dict) {
        Some(answers) => match Session::resume(alloc, dict, answers) {
            Ok(session) => Ok(session),
            Err(NoMemory) => Err("no memory for the session"),
        },
        None => {
            drop(dict);
            Err("no memory for the answers")
        }
    }
}

fn begin(alloc: Global) -> Result<Session<PlainTable>, &'static str> {
    match accepted(alloc, SIZED) {
        Some(dict) => session_of(alloc, dict),
        None => Err("no memory"),
    }
}

// The number of the members.
const SIZE: Slot = Slot { fact: 2, member: 0 };

fn is_number(value: &Value, wanted: i64) -> bool {
    match value {
        Value::Int(n) => n.get() == wanted,
        _ => false,
    }
}

fn is_complete(res: &Res, wanted: i64) -> bool {
    match res {
        Res::Complete(value) => is_number(value, wanted),
        _ => false,
    }
}

fn has_size(session: &Session<PlainTable>, wanted: i64) -> bool {
    match session.result(SIZE) {
        Some(res) => is_complete(res, wanted),
        None => false,
    }
}

// Whether the two members are counted, and then one more: none where memory is wanting.
fn grows(alloc: Global, session: &mut Session<PlainTable>) -> Option<bool> {
    let has_two = has_size(session, 2);
    obey(alloc, session, "add /c")?;
    Some(has_two && has_size(session, 3))
}

fn goes_on(alloc: Global) -> Result<bool, &'static str> {
    match begin(alloc) {
        Ok(mut session) => {
            let grows = grows(alloc, &mut session).ok_or("no memory");
            drop(session);
            grows
        }
        Err(fault) => Err(fault),
    }
}

#[test]
fn a_session_goes_on_from_given_answers(rt: HostRuntime) -> Result<(), Fail> {
    let goes_on = goes_on(rt.alloc())?;
    assert!(rt; goes_on);
    Ok(())
}
