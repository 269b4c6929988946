//! Tests of `text_checks`: of a table, and of texts that no answer is. The other texts, and the program's own table, are
//! stored cases.
ghost use Rattle.std.specs.Prelude.{◌≡◌, ◌≤◌, Bool, length};
ghost use Rattle.text_checks.specs.Checks.{IsCode, check_says};

use fact_paths::Name;
use std::alloc::Global;
use std::test::Fail;
use text_checks::{CheckTable, TableFault, Test, digits, nine_digits, printable_ascii, trimmed};

#[test]
fn control_characters_are_not_printable(rt: HostRuntime) {
    for text in ["\u{7f}", "\u{1f}"] {
        assert!(rt; !digits(text) && !nine_digits(text) && !printable_ascii(text) && trimmed(text));
    }
}

// Adds a check to a table that has few.
fn add(
    alloc: Global,
    table: &mut CheckTable,
    name: &str,
    code: u32,
    check: Test,
) -> Option<TableFault>
    requires code { IsCode code }
    requires callable { (text : _) → length text.now ≤ 1000 → Test.pre check text }
    requires says { (text : _) (answer : Bool) → length text.now ≤ 1000
        → Test.post check text answer → answer ≡ check_says code text.now }
{
    if table.len() > 9 {
        return Some(TableFault::NoMemory);
    }
    match Name::read(alloc, name) {
        Ok(name) => table.add(name, code, check).err(),
        Err(_) => Some(TableFault::NoMemory),
    }
}

fn add_digits(alloc: Global, table: &mut CheckTable) -> Option<TableFault> {
    let check = Box::new(
        alloc,
        |text: &str| -> bool
            ensures { result ≡ check_says 1 text.now }
        { digits(text) },
    );
    match check {
        Ok(check) => add(alloc, table, "digits", 1, check),
        Err(_) => Some(TableFault::NoMemory),
    }
}

// Under a name of the caller's.
fn add_trimmed(alloc: Global, table: &mut CheckTable, name: &str) -> Option<TableFault> {
    let check = Box::new(
        alloc,
        |text: &str| -> bool
            ensures { result ≡ check_says 4 text.now }
        { trimmed(text) },
    );
    match check {
        Ok(check) => add(alloc, table, name, 4, check),
        Err(_) => Some(TableFault::NoMemory),
    }
}

// The checks `digits` and `trimmed`: none where memory is wanting.
fn two(alloc: Global) -> Option<CheckTable> {
    let mut table = CheckTable::new(alloc);
    let digits = add_digits(alloc, &mut table).is_none();
    let trimmed = add_trimmed(alloc, &mut table, "trimmed").is_none();
    if digits && trimmed { Some(table) } else { None }
}

fn has_name(table: &CheckTable, place: u32, name: &str) -> bool {
    match table.name(place) {
        Some(found) => found.as_str() == name,
        None => false,
    }
}

fn has_check(table: &CheckTable, place: u32, name: &str, code: u32) -> bool {
    table.find(name) == Some(place)
        && has_name(table, place, name)
        && table.code(place) == Some(code)
}

fn has_no_other(table: &CheckTable) -> bool {
    table.find("digit").is_none() && table.name(2).is_none() && table.code(2).is_none()
}

fn has_two(table: &CheckTable) -> bool {
    has_check(table, 0, "digits", 1) && has_check(table, 1, "trimmed", 4) && has_no_other(table)
}

// What the check at the place says, where the table has one and the text is short.
fn says(table: &CheckTable, place: u32, text: &str) -> bool {
    place < table.len() && text.len() < 20 && table.run(place, text)
}

fn says_of(table: &CheckTable, text: &str, digits: bool, trimmed: bool) -> bool {
    says(table, 0, text) == digits && says(table, 1, text) == trimmed
}

fn runs_the_one_at_the_place(table: &CheckTable) -> bool {
    says_of(table, "12", true, true)
        && says_of(table, "é", false, true)
        && says_of(table, "é ", false, false)
}

#[test]
fn a_table_has_its_checks_by_name_and_place(rt: HostRuntime) -> Result<(), Fail> {
    let table = two(rt.alloc()).ok_or("no table")?;
    assert!(rt; has_two(&table));
    assert!(rt; runs_the_one_at_the_place(&table));
    Ok(())
}

fn is_added_once(alloc: Global, table: &mut CheckTable) -> bool {
    add_trimmed(alloc, table, "digits") == Some(TableFault::Same) && has_two(table)
}

#[test]
fn a_name_is_added_once(rt: HostRuntime) -> Result<(), Fail> {
    let mut table = two(rt.alloc()).ok_or("no table")?;
    assert!(rt; is_added_once(rt.alloc(), &mut table));
    Ok(())
}
