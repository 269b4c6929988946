//! Tests of `fact_paths`: of the texts that are printed. What each kind of path spells is shown by stored cases.

use fact_paths::{FactPath, Name, read_fact_path, read_slot_path, read_use_path};
use std::alloc::Global;

fn is_text(printed: Option<String>, text: &str) -> bool {
    match printed {
        Some(printed) => printed.as_str() == text,
        None => false,
    }
}

fn has_equal_copy(alloc: Global, name: &Name) -> bool {
    match name.copy(alloc) {
        Ok(copy) => copy == *name,
        Err(_) => false,
    }
}

fn gives_text(name: Name, text: &str) -> bool {
    let given = name.into_string();
    given.as_str() == text
}

fn is_name(alloc: Global, text: &str) -> bool {
    match Name::read(alloc, text) {
        Ok(name) => has_equal_copy(alloc, &name) && gives_text(name, text),
        Err(_) => false,
    }
}

#[test]
fn a_name_is_copied_and_gives_its_text(rt: HostRuntime) {
    assert!(rt; is_name(rt.alloc(), "Zz_9-"));
}

fn is_fact_path(alloc: Global, text: &str) -> bool {
    match read_fact_path(alloc, text) {
        Ok(path) => path == path && is_text(path.to_string(alloc).ok(), text),
        Err(_) => false,
    }
}

fn is_same(alloc: Global, path: &FactPath, text: &str) -> bool {
    match read_fact_path(alloc, text) {
        Ok(other) => *path == other,
        Err(_) => true,
    }
}

fn are_same(alloc: Global, one: &str, other: &str) -> bool {
    match read_fact_path(alloc, one) {
        Ok(one) => is_same(alloc, &one, other),
        Err(_) => true,
    }
}

fn is_use_path(alloc: Global, text: &str) -> bool {
    match read_use_path(alloc, text) {
        Ok(path) => path == path && is_text(path.to_string(alloc).ok(), text),
        Err(_) => false,
    }
}

fn is_slot_path(alloc: Global, text: &str) -> bool {
    match read_slot_path(alloc, text) {
        Ok(path) => path == path && is_text(path.to_string(alloc).ok(), text),
        Err(_) => false,
    }
}

fn are_printed_and_compared(alloc: Global) -> bool {
    is_fact_path(alloc, "/a/*/b")
        && !are_same(alloc, "/a/*/b", "/a/*/c")
        && is_use_path(alloc, "../a/b")
        && is_slot_path(alloc, "/c/#20/k")
}

#[test]
fn paths_are_printed_and_compared(rt: HostRuntime) {
    assert!(rt; are_printed_and_compared(rt.alloc()));
}
