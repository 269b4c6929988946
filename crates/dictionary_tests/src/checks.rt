//! Tables of checks.
ghost use Rattle.std.specs.Prelude.{◌≡◌, ◌≤◌, Bool, length};
ghost use Rattle.text_checks.specs.Checks.{IsCode, check_says};

use fact_paths::Name;
use std::alloc::Global;
use text_checks::{CheckTable, Test, digits, nine_digits};

// Adds a check to a table that has few.
fn add(alloc: Global, table: &mut CheckTable, name: &str, code: u32, check: Test) -> bool
    requires code { IsCode code }
    requires callable { (text : _) → length text.now ≤ 1000 → Test.pre check text }
    requires says { (text : _) (answer : Bool) → length text.now ≤ 1000
        → Test.post check text answer → answer ≡ check_says code text.now }
{
    if table.len() > 9 {
        return false;
    }
    match Name::read(alloc, name) {
        Ok(name) => table.add(name, code, check).is_ok(),
        Err(_) => false,
    }
}

fn add_digits(alloc: Global, table: &mut CheckTable) -> bool {
    let check = Box::new(
        alloc,
        |text: &str| -> bool
            ensures { result ≡ check_says 1 text.now }
        { digits(text) },
    );
    match check {
        Ok(check) => add(alloc, table, "digits", 1, check),
        Err(_) => false,
    }
}

fn add_nine_digits(alloc: Global, table: &mut CheckTable) -> bool {
    let check = Box::new(
        alloc,
        |text: &str| -> bool
            ensures { result ≡ check_says 2 text.now }
        { nine_digits(text) },
    );
    match check {
        Ok(check) => add(alloc, table, "nine-digits", 2, check),
        Err(_) => false,
    }
}

/// The check `digits`, and then `nine-digits` where it is wanted; none for want of memory.
pub fn table(alloc: Global, with_nine_digits: bool) -> Option<CheckTable> {
    let mut table = CheckTable::new(alloc);
    let is_whole = add_digits(alloc, &mut table)
        && (!with_nine_digits || add_nine_digits(alloc, &mut table));
    if is_whole { Some(table) } else { None }
}
