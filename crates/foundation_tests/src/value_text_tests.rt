//! Tests of `value_text`: of calls that no script shows. Which texts are read, and how values are printed, is stored cases.
use fact_paths::Name;
use fact_values::Dollar;
use std::alloc::Global;
use std::test::Fail;
use value_text::{EnumLists, Line, ListFault, print_dollar};

fn names(alloc: Global, texts: &[&str]) -> Option<Vec<Name>> {
    let mut names = Vec::new(alloc);
    for text in texts {
        let name = Name::read(alloc, text).ok()?;
        names.push(name).ok()?;
    }
    Some(names)
}

// Adds a list of these options, where few are there: the fault, or none.
fn add_list(
    alloc: Global,
    lists: &mut EnumLists,
    name: &str,
    options: Vec<Name>,
) -> Option<ListFault> {
    if lists.len() > 9 || options.len() > 9 {
        return Some(ListFault::NoMemory);
    }
    match Name::read(alloc, name) {
        Ok(name) => lists.add(name, options).err(),
        Err(_) => Some(ListFault::NoMemory),
    }
}

fn add(alloc: Global, lists: &mut EnumLists, name: &str, options: &[&str]) -> Option<ListFault> {
    match names(alloc, options) {
        Some(options) => add_list(alloc, lists, name, options),
        None => Some(ListFault::NoMemory),
    }
}

fn is_added(alloc: Global, lists: &mut EnumLists, name: &str, options: &[&str]) -> bool {
    add(alloc, lists, name, options).is_none()
}

fn is_same(alloc: Global, lists: &mut EnumLists, name: &str, options: &[&str]) -> bool {
    add(alloc, lists, name, options) == Some(ListFault::Same)
}

fn is_empty(alloc: Global, lists: &mut EnumLists, name: &str) -> bool {
    add(alloc, lists, name, &[]) == Some(ListFault::Empty)
}

// One list is added, and each other one is refused.
fn is_added_alone(alloc: Global, lists: &mut EnumLists) -> bool {
    is_same(alloc, lists, "n", &["a", "b", "a"])
        && is_added(alloc, lists, "n", &["a"])
        && is_same(alloc, lists, "n", &["b"])
        && is_empty(alloc, lists, "m")
        && is_same(alloc, lists, "n", &[])
        && lists.len() == 1
}

#[test]
fn repeated_and_empty_lists_are_refused(rt: HostRuntime) {
    let mut lists = EnumLists::new(rt.alloc());
    assert!(rt; is_added_alone(rt.alloc(), &mut lists));
}

// Two lists that share an option.
fn two_lists(alloc: Global) -> Option<EnumLists> {
    let mut lists = EnumLists::new(alloc);
    if is_added(alloc, &mut lists, "status", &["single", "married"])
        && is_added(alloc, &mut lists, "other", &["marr", "married"])
    {
        Some(lists)
    } else {
        None
    }
}

// Does the option at a place have this text?
fn is_option(lists: &EnumLists, list: u32, place: u32, text: &str) -> bool {
    match lists.option(list, place) {
        Some(name) => name.as_str() == text,
        None => text.is_empty(),
    }
}

fn are_two(lists: &EnumLists) -> bool {
    lists.len() == 2 && lists.find("other") == Some(1) && lists.find("stat").is_none()
}

fn are_options(lists: &EnumLists) -> bool {
    is_option(lists, 0, 1, "married")
        && is_option(lists, 1, 0, "marr")
        && is_option(lists, 0, 2, "")
        && is_option(lists, 2, 0, "")
}

#[test]
fn lists_and_options_have_places(rt: HostRuntime) -> Result<(), Fail> {
    let lists = two_lists(rt.alloc()).ok_or("no memory")?;
    assert!(rt; are_two(&lists) && are_options(&lists));
    Ok(())
}

#[test]
fn a_line_takes_pieces_and_starts_again(rt: HostRuntime) {
    let mut line = Line::new();
    line.push(b"a = ");
    if let Some(amount) = Dollar::new(250) {
        print_dollar(amount, &mut line);
    }
    assert!(rt; line.bytes() == b"a = 2.50".as_slice());
    line.clear();
    line.push(&[b'x'; 1_100]);
    assert!(rt; line.bytes().len() == 1_100);
}
