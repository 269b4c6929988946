//! Tests of `dictionary`: what is worked out of one that is accepted. Which faults are named is stored cases.
use crate::checks::table;
use dictionary::{Dictionary, accept};
use std::alloc::Global;
use std::test::Fail;
use text_checks::CheckTable;

const UNCHECKED: &[u8] = br#"{"version":"1","facts":[{"path":"/a","writable":"Dollar"}]}"#;

const CHECKED: &[u8] =
    br#"{"version":"1","facts":[{"path":"/z","writable":"Text","limits":[["MaxLength","9"],["Check","nine-digits"]]}]}"#;

// The sum stands before what it mentions, and /i asks whether there is an answer.
const MEMBERS: &[u8] =
    br#"{"version":"1","facts":[{"path":"/t","derived":"Int","is":["CollectionSum","/l/*/v"]},{"path":"/l","derived":"Collection(/c)","is":["Filter","/c",["Dependency","k"]]},{"path":"/c","writable":"Collection"},{"path":"/c/*/k","writable":"Boolean"},{"path":"/c/*/v","writable":"Int"},{"path":"/i","derived":"Boolean","is":["IsComplete","/t"]}]}"#;

fn accepted(alloc: Global, bytes: &[u8]) -> Option<Dictionary> {
    let checks = table(alloc, true)?;
    accept(alloc, bytes, &checks).ok()
}

// Whether the fact has this rank and home, and is steady or not.
fn has_figures(d: &Dictionary, fact: u32, rank: u32, home: u32, is_steady: bool) -> bool {
    if fact == 0 || fact > d.fact_count() {
        return false;
    }
    d.rank(fact) == rank && d.home(fact) == home && d.steady(fact) == is_steady
}

fn are_worked_out(d: &Dictionary) -> bool {
    has_figures(d, 1, 2, 0, true)
        && has_figures(d, 2, 1, 0, true)
        && has_figures(d, 3, 0, 0, true)
        && has_figures(d, 4, 0, 3, true)
        && has_figures(d, 5, 0, 3, true)
        && has_figures(d, 6, 3, 0, false)
}

fn is_worked_out(d: &Dictionary) -> bool {
    d.node_count() == 4 && d.by_rank() == [3, 4, 5, 2, 1, 6].as_slice()
}

#[test]
fn facts_are_worked_out(rt: HostRuntime) -> Result<(), Fail> {
    let d = accepted(rt.alloc(), MEMBERS).ok_or("refused")?;
    assert!(rt; is_worked_out(&d));
    assert!(rt; are_worked_out(&d));
    Ok(())
}

// Whether a dictionary that was accepted with both checks takes these for the same: none where it isn't accepted.
fn takes(alloc: Global, bytes: &[u8], checks: &CheckTable) -> Option<bool> {
    match accepted(alloc, bytes) {
        Some(d) => Some(d.same_checks(checks)),
        None => None,
    }
}

#[test]
fn checks_stay_those_of_acceptance(rt: HostRuntime) -> Result<(), Fail> {
    let both = table(rt.alloc(), true).ok_or("no table")?;
    assert!(rt; takes(rt.alloc(), CHECKED, &both) == Some(true));
    Ok(())
}

#[test]
fn fewer_checks_do_where_none_is_named(rt: HostRuntime) -> Result<(), Fail> {
    let fewer = table(rt.alloc(), false).ok_or("no table")?;
    assert!(rt; takes(rt.alloc(), CHECKED, &fewer) == Some(false));
    assert!(rt; takes(rt.alloc(), UNCHECKED, &fewer) == Some(true));
    Ok(())
}
