// The checks that a dictionary may name, and the relations by which a slot may be watched. A host's function makes them for
// itself, by the macros here, since none may hand out closures that it makes.
ghost use Rattle.std.specs.Prelude.{◌≡◌, ◌+◌, ◌-◌, ◌<◌, ◌≤◌, ◌^◌, Bool, [], ◌∷◌, ◌++◌, OnOk, length};
ghost use Rattle.text_checks.specs.Checks.{IsCode, check_says};
ghost use Rattle.text_checks.specs.Tables.{named_checks};
ghost use Rattle.fact_watch.specs.Says.{IsCode as IsRelation, watch_says};
ghost use Rattle.fact_watch.specs.Tables.{named_relations};

use fact_paths::Name;
use fact_watch::{Says, WatchTable};
use std::alloc::{AllocError, Global};
use text_checks::{CheckTable, Test};

/// What a host brings with it, for each line that it hands in.
#[derive(Drop)]
pub struct Tables<'a> {
    /// The checks of texts that a dictionary may name.
    pub checks: &'a CheckTable,
    /// The relations by which a slot may be watched.
    pub relations: &'a WatchTable,
}

/// Adds a check under another name than those that are there, so that nothing but want of memory hinders it.
pub fn add_check(
    alloc: Global,
    checks: &mut CheckTable,
    name: &str,
    code: u32,
    check: Test,
) -> Result<(), AllocError>
    requires room { length checks.old.checks.items < 2 ^ 32 - 1 }
    requires code { IsCode code }
    requires callable { (text : _) → length text.now ≤ 1000 → Test.pre check text }
    requires says { (text : _) (answer : Bool) → length text.now ≤ 1000 → Test.post check text answer → answer
        ≡ check_says code text.now }
    ensures added { OnOk result (named_checks checks.new ≡ named_checks checks.old ++ (name.now, code) ∷ []) }
    ensures count { OnOk result (length checks.new.checks.items ≡ length checks.old.checks.items + 1) }
{
    let Ok(name) = Name::read(alloc, name) else {
        return Err(AllocError);
    };
    match checks.add(name, code, check) {
        Ok(()) => Ok(()),
        Err(_) => Err(AllocError),
    }
}

/// Adds a relation under another name than those that are there, so that nothing but want of memory hinders it.
pub fn add_relation(
    alloc: Global,
    relations: &mut WatchTable,
    name: &str,
    code: u32,
    says: Says,
) -> Result<(), AllocError>
    requires room { length relations.old.relations.items < 2 ^ 32 - 1 }
    requires code { IsRelation code }
    requires callable { (old : _) (new : _) → Says.pre says old new }
    requires says { (old : _) (new : _) (answer : Bool) → Says.post says old new answer → answer
        ≡ watch_says code old.now new.now }
    ensures added { OnOk result (named_relations relations.new ≡ named_relations relations.old ++ (name.now, code)
        ∷ []) }
    ensures count { OnOk result (length relations.new.relations.items ≡ length relations.old.relations.items + 1) }
{
    let Ok(name) = Name::read(alloc, name) else {
        return Err(AllocError);
    };
    match relations.add(name, code, says) {
        Ok(()) => Ok(()),
        Err(_) => Err(AllocError),
    }
}

/// Adds the four checks to an empty table, in a function that may answer `AllocError`.
#[macro_export]
macro_rules! standard_checks {
    ($alloc:expr, $checks:ident) => {
        let check = Box::new($alloc, |text: &str| text_checks::digits(text))?;
        $crate::add_check($alloc, &mut $checks, "digits", 1, check)?;
        let check = Box::new($alloc, |text: &str| text_checks::nine_digits(text))?;
        $crate::add_check($alloc, &mut $checks, "nine-digits", 2, check)?;
        let check = Box::new($alloc, |text: &str| text_checks::printable_ascii(text))?;
        $crate::add_check($alloc, &mut $checks, "printable-ascii", 3, check)?;
        let check = Box::new($alloc, |text: &str| text_checks::trimmed(text))?;
        $crate::add_check($alloc, &mut $checks, "trimmed", 4, check)?;
    };
}

/// Adds the four relations to an empty table, in a function that may answer `AllocError`.
#[macro_export]
macro_rules! standard_relations {
    ($alloc:expr, $relations:ident) => {
        let says = Box::new($alloc, |old: &three_state::Res, new: &three_state::Res| fact_watch::changed(old, new))?;
        $crate::add_relation($alloc, &mut $relations, "changed", 1, says)?;
        let says = Box::new($alloc, |old: &three_state::Res, new: &three_state::Res| fact_watch::completed(old, new))?;
        $crate::add_relation($alloc, &mut $relations, "completed", 2, says)?;
        let says = Box::new($alloc, |old: &three_state::Res, new: &three_state::Res| fact_watch::lost(old, new))?;
        $crate::add_relation($alloc, &mut $relations, "lost", 3, says)?;
        let says = Box::new($alloc, |old: &three_state::Res, new: &three_state::Res| fact_watch::raised(old, new))?;
        $crate::add_relation($alloc, &mut $relations, "raised", 4, says)?;
    };
}
