// The rule that each path and node stands where it may.
ghost use Rattle.std.specs.Prelude.{◌≡◌, option_copied, option_map, Some};
ghost use Rattle.dict_source.specs.Dictionary.{dictionary_view};
ghost use Rattle.dict_source.specs.Facts.{fact_view};
ghost use Rattle.dict_source.specs.View.{use_view};
ghost use Rattle.dict_rules.specs.WrongPlace.{has_wrong_place as wrong_place, is_displaced as displaced, is_in_place as in_place, is_member_path as member_path, is_misplaced as misplaced, is_of_members as of_members};

use crate::no_collection::is_list;
use crate::use_op::UseOp;
use crate::uses::{UseRule, goes_through_members, reads_each, reads_fact, some_use_breaks};
use dict_source::{DictSource, FactSource, PathUse};
use fact_paths::{FactPath, UsePath};

fn is_member(path: &FactPath) -> bool
    ensures { result ≡ member_path (Some path.now) }
{
    match path {
        FactPath::Global(_) => false,
        FactPath::Member(..) => true,
    }
}

fn is_member_path(path: &Option<FactPath>) -> bool
    ensures { result ≡ member_path path.now }
{
    match path {
        None => false,
        Some(path) => is_member(path),
    }
}

fn is_of_members(source: &DictSource, number: u32) -> bool
    ensures { result ≡ of_members (dictionary_view source.now) number }
{
    match source.fact(number) {
        None => false,
        Some(fact) => is_member_path(&fact.path),
    }
}

/// Whether the use path may stand with this operator, in this fact, under this condition.
pub fn is_in_place(
    source: &DictSource,
    fact: u32,
    use_op: UseOp,
    condition: Option<u32>,
    path: &UsePath,
) -> bool
    ensures { result ≡ in_place (dictionary_view source.now) fact use_op condition path.now }
{
    match path {
        UsePath::Global(_) => !reads_each(use_op),
        UsePath::Sibling(_) => reads_fact(use_op) && is_of_members(source, fact),
        UsePath::Inner(_) => reads_fact(use_op) && condition.is_some(),
        UsePath::Each(..) => reads_each(use_op),
        UsePath::Through(..) => reads_fact(use_op),
        UsePath::SiblingThrough(..) => reads_fact(use_op) && is_of_members(source, fact),
    }
}

fn is_displaced(
    source: &DictSource,
    fact: u32,
    use_op: UseOp,
    condition: Option<u32>,
    used: &PathUse,
) -> bool
    ensures { result ≡ displaced (dictionary_view source.now) fact use_op condition (use_view used.now).path }
{
    match used {
        PathUse::Spelled(path) => !is_in_place(source, fact, use_op, condition, path),
        PathUse::Misspelled(_) => false,
    }
}

/// Whether the path isn't in its place, or its node goes through members under a condition.
pub fn is_misplaced(
    source: &DictSource,
    fact: u32,
    use_op: UseOp,
    condition: Option<u32>,
    used: &PathUse,
) -> bool
    ensures { result ≡ misplaced (dictionary_view source.now) fact use_op condition (use_view used.now) }
{
    (goes_through_members(use_op) && condition.is_some())
        || is_displaced(source, fact, use_op, condition, used)
}

/// Whether something in the fact stands out of its place.
pub fn has_wrong_place(source: &DictSource, number: u32, fact: &FactSource) -> bool
    ensures { result ≡ wrong_place (dictionary_view source.now) number (fact_view fact.now) }
{
    (is_list(&fact.stated) && is_member_path(&fact.path))
        || some_use_breaks(source, UseRule::WrongPlace, number, fact)
}
