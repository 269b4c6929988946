//! The dictionaries whose nodes and readers were worked out by hand.
ghost use Rattle.std.specs.Prelude.{◌≡◌};
ghost use Rattle.text_checks.specs.Checks.{check_says};

use dictionary::{Dictionary, accept};
use fact_paths::Name;
use std::alloc::Global;
use text_checks::{CheckTable, nine_digits};

pub const SUM: &str =
    r#"{"version":"1","facts":[{"path":"/a","writable":"Dollar"},{"path":"/b","writable":"Dollar"},{"path":"/s","derived":"Dollar","is":["Add",["Dependency","/a"],["Dependency","/b"]]}]}"#;

pub const SUM_OVER_A_PLACEHOLDER: &str =
    r#"{"version":"1","facts":[{"path":"/a","writable":"Dollar"},{"path":"/b","writable":"Dollar","placeholder":["Dollar","0"]},{"path":"/s","derived":"Dollar","is":["Add",["Dependency","/a"],["Dependency","/b"]]}]}"#;

pub const CONDITIONS: &str =
    r#"{"version":"1","facts":[{"path":"/p","writable":"Boolean"},{"path":"/q","writable":"Boolean"},{"path":"/r","derived":"Boolean","is":["All",["Dependency","/p"],["Dependency","/q"]]},{"path":"/w","derived":"Int","is":["Switch",["Case",["Dependency","/p"],["Int","1"]],["Case",["Dependency","/q"],["Int","2"]]]},{"path":"/i","derived":"Boolean","is":["IsComplete","/p"]}]}"#;

pub const AMOUNTS: &str =
    r#"{"version":"1","facts":[{"path":"/p","writable":"Boolean"},{"path":"/d1","derived":"Dollar","is":["Add",["Dollar","9999999999999.99"],["Dollar","0.01"],["Dollar","-0.01"]]},{"path":"/d2","derived":"Dollar","is":["Add",["Dollar","9999999999999.99"],["Dollar","0.01"]]},{"path":"/d3","derived":"Dollar","is":["Multiply",["Dollar","100.05"],["Rational","1/2"]]},{"path":"/d4","derived":"Dollar","is":["Divide",["Dollar","1"],["Int","0"]]},{"path":"/d5","derived":"Boolean","is":["Any",["Equal",["Dependency","/d4"],["Dollar","0"]],["Dependency","/p"]]}]}"#;

pub const MEMBERS: &str =
    r#"{"version":"1","facts":[{"path":"/c","writable":"Collection"},{"path":"/c/*/k","writable":"Boolean"},{"path":"/c/*/v","writable":"Int"},{"path":"/l","derived":"Collection(/c)","is":["Filter","/c",["Dependency","k"]]},{"path":"/f","derived":"Item(/c)","is":["Find","/c",["Dependency","k"]]},{"path":"/t","derived":"Int","is":["CollectionSum","/l/*/v"]},{"path":"/g","derived":"Int","is":["Dependency","/f/v"]}]}"#;

pub const CHECKED: &str =
    r#"{"version":"1","facts":[{"path":"/z","writable":"Text","limits":[["MaxLength","9"],["Check","nine-digits"]]}]}"#;

pub const CASES: &str =
    r#"{"version":"1","facts":[{"path":"/p","writable":"Boolean","placeholder":["False"]},{"path":"/x","derived":"Int","is":["Switch",["Case",["Dependency","/p"],["Int","1"]],["Case",["True"],["Int","2"]]]}]}"#;

// A table with the check `nine-digits`; none for want of memory.
fn checks(alloc: Global) -> Option<CheckTable> {
    let name = Name::read(alloc, "nine-digits").ok()?;
    let check = Box::new(
        alloc,
        |text: &str| -> bool
            ensures { result ≡ check_says 2 text.now }
        { nine_digits(text) },
    );
    let check = check.ok()?;
    let mut table = CheckTable::new(alloc);
    match table.add(name, 2, check) {
        Ok(()) => Some(table),
        Err(_) => {
            drop(table);
            None
        }
    }
}

/// The dictionary of this text, with the check `nine-digits`; none where it is refused, or for want of memory.
pub fn accepted(alloc: Global, dictionary: &str) -> Option<Dictionary> {
    match checks(alloc) {
        Some(checks) => {
            let dictionary = accept(alloc, dictionary.as_bytes(), &checks).ok();
            drop(checks);
            dictionary
        }
        None => None,
    }
}
