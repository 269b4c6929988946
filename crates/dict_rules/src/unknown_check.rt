// The rule that each check is one of the table's.
ghost use Rattle.std.specs.Prelude.{◌≡◌};
ghost use Rattle.text_checks.specs.Tables.{check_names};
ghost use Rattle.dict_source.specs.Facts.{fact_view, limit_view};
ghost use Rattle.dict_rules.specs.UnknownCheck.{check_place, has_unknown_check as unknown_check, is_unknown_check as check_unknown};

use dict_source::{FactSource, LimitText};
use text_checks::CheckTable;

/// The place of the check of this name, from 0.
pub fn find_check(checks: &CheckTable, name: &str) -> Option<u32>
    ensures { result ≡ check_place (check_names checks.now) name.now }
{
    checks.find(name)
}

fn is_unknown_check(checks: &CheckTable, limit: &LimitText) -> bool
    ensures { result ≡ check_unknown (check_names checks.now) (limit_view limit.now) }
{
    match limit {
        LimitText::Min(_) => false,
        LimitText::Max(_) => false,
        LimitText::MaxLength(_) => false,
        LimitText::Check(name) => find_check(checks, name.as_str()).is_none(),
    }
}

/// Whether a limit of the fact names no check of the table.
pub fn has_unknown_check(checks: &CheckTable, fact: &FactSource) -> bool
    ensures { result ≡ unknown_check (check_names checks.now) (fact_view fact.now) }
{
    for limit in &fact.limits {
        if is_unknown_check(checks, limit) {
            return true;
        }
    }
    false
}
