// The checks with which a dictionary was accepted, and whether it names any.
ghost use Rattle.std.specs.Prelude.{◌≡◌, ◌==◌, ◌<◌, ◌^◌, ℕ, List, length, map, IfOk};
ghost use Rattle.std.specs.List.{list_any};
ghost use Rattle.text_checks.specs.Tables.{named_checks};
ghost use Rattle.dict_source.specs.Facts.{fact_view, limit_view};
ghost use Rattle.dictionary.specs.Checks.{fact_has_check, is_check, same_checks, same_named};

use dict_source::{FactSource, LimitText};
use fact_paths::Name;
use fact_values::NoMemory;
use std::alloc::Global;
use std::marker::Model;
use text_checks::{Check, CheckTable};

/// A check's name and its code.
#[derive(Drop)]
pub struct KeptCheck {
    name: Name,
    code: u32,
}

impl Model for KeptCheck {
    ghost use Rattle.dictionary.specs.AcceptedParts.{Named};

    ghost Value = { Named };

    ghost view = { λ c. (c.name, c.code) };
}

impl KeptCheck {
    fn of(alloc: Global, check: &Check) -> Result<KeptCheck, NoMemory>
        ensures { IfOk result (λ kept. kept ≡ (check.now.name, check.now.code)) }
    {
        Ok(KeptCheck {
            name: check.name.copy(alloc)?,
            code: check.code,
        })
    }

    fn is_of(&self, check: &Check) -> bool
        ensures { result ≡ same_named self.now (check.now.name, check.now.code) }
    {
        self.name.as_str() == check.name.as_str() && self.code == check.code
    }
}

/// The names and codes of a table.
pub fn keep_checks(alloc: Global, checks: &CheckTable) -> Result<Vec<KeptCheck>, NoMemory>
    ensures { IfOk result (λ list. list.items ≡ named_checks checks.now) }
{
    let mut list = Vec::new(alloc);
    for check in &checks.checks {
        list.push(KeptCheck::of(alloc, check)?)?;
    }
    Ok(list)
}

fn are_of(kept: &[KeptCheck], checks: &[Check]) -> bool
    requires { length kept.now ≡ length checks.now }
    ensures { result ≡ same_checks kept.now (map {B = List ℕ × ℕ} (λ c. (c.name, c.code)) checks.now) }
{
    for (i, check) in checks.iter().enumerate() {
        if !kept[i].is_of(check) {
            return false;
        }
    }
    true
}

/// Whether these are the names and codes of the table.
pub fn are_of_table(kept: &[KeptCheck], table: &CheckTable) -> bool
    ensures { result ≡ same_checks kept.now (named_checks table.now) }
{
    if kept.len() != table.checks.len() {
        return false;
    }
    are_of(kept, table.checks.as_slice())
}

fn names_check(limit: &LimitText) -> bool
    ensures { result ≡ is_check (limit_view limit.now) }
{
    match limit {
        LimitText::Min(_) => false,
        LimitText::Max(_) => false,
        LimitText::MaxLength(_) => false,
        LimitText::Check(_) => true,
    }
}

fn fact_names_check(fact: &FactSource) -> bool
    ensures { result ≡ fact_has_check (fact_view fact.now) }
{
    for limit in &fact.limits {
        if names_check(limit) {
            return true;
        }
    }
    false
}

/// Whether a limit of some fact is a check.
pub fn name_checks(facts: &[FactSource]) -> bool
    ensures { result ≡ list_any fact_has_check (map fact_view facts.now) }
{
    for fact in facts {
        if fact_names_check(fact) {
            return true;
        }
    }
    false
}
