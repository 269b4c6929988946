// The rule that a path in an expression names a fact.
ghost use Rattle.std.specs.Prelude.{◌≡◌, is_some, option_and_then, option_copied, option_map, Some};
ghost use Rattle.dict_source.specs.Dictionary.{dictionary_view};
ghost use Rattle.dict_source.specs.Facts.{fact_view, stated_view};
ghost use Rattle.dict_source.specs.Targets.{base_name, global_name, item_base, item_base_at, list_base, list_base_at};
ghost use Rattle.dict_source.specs.View.{use_view};
ghost use Rattle.dict_rules.specs.UnknownPath.{has_unknown_path as unknown_path, is_judged as judged, is_second_judged as second_judged, is_unknown_path as path_unknown, is_unknown_use as unknown_use, lacks_target as without_target};

use crate::use_op::UseOp;
use crate::uses::{UseRule, base_under, some_use_breaks};
use crate::wrong_place::is_in_place;
use dict_source::{DictSource, FactSource, PathUse, Targets, TypeText};
use fact_paths::{FactPath, UsePath};

// ---- bases

fn is_global(path: &FactPath) -> bool
    ensures { result ≡ is_some (global_name path.now) }
{
    match path {
        FactPath::Global(_) => true,
        FactPath::Member(..) => false,
    }
}

fn is_global_path(path: &Option<FactPath>) -> bool
    ensures { result ≡ is_some (option_and_then global_name path.now) }
{
    match path {
        None => false,
        Some(path) => is_global(path),
    }
}

fn is_base(path: &UsePath) -> bool
    ensures { result ≡ is_some (base_name path.now) }
{
    match path {
        UsePath::Global(_) => true,
        UsePath::Sibling(_) => false,
        UsePath::Inner(_) => false,
        UsePath::Each(..) => false,
        UsePath::Through(..) => false,
        UsePath::SiblingThrough(..) => false,
    }
}

fn has_base(used: &PathUse) -> bool
    ensures { result ≡ is_some (option_and_then base_name (use_view used.now).path) }
{
    match used {
        PathUse::Spelled(path) => is_base(path),
        PathUse::Misspelled(_) => false,
    }
}

fn has_list_base(fact: &FactSource) -> bool
    ensures { result ≡ is_some (list_base fact.now.path (stated_view fact.now.stated)) }
{
    match &fact.stated {
        TypeText::Scalar(_) => false,
        TypeText::EnumOf(_) => false,
        TypeText::WritableList => is_global_path(&fact.path),
        TypeText::ListOf(used) => has_base(used),
        TypeText::ItemOf(_) => false,
    }
}

fn has_item_base(fact: &FactSource) -> bool
    ensures { result ≡ is_some (item_base (stated_view fact.now.stated)) }
{
    match &fact.stated {
        TypeText::Scalar(_) => false,
        TypeText::EnumOf(_) => false,
        TypeText::WritableList => false,
        TypeText::ListOf(_) => false,
        TypeText::ItemOf(used) => has_base(used),
    }
}

fn has_list_base_at(source: &DictSource, number: u32) -> bool
    ensures { result ≡ is_some (list_base_at (dictionary_view source.now) number) }
{
    match source.fact(number) {
        None => false,
        Some(fact) => has_list_base(fact),
    }
}

fn has_item_base_at(source: &DictSource, number: u32) -> bool
    ensures { result ≡ is_some (item_base_at (dictionary_view source.now) number) }
{
    match source.fact(number) {
        None => false,
        Some(fact) => has_item_base(fact),
    }
}

fn is_list_known(source: &DictSource, first: Option<u32>) -> bool
    ensures { result ≡ is_some (option_and_then (list_base_at (dictionary_view source.now)) first) }
{
    match first {
        None => false,
        Some(first) => has_list_base_at(source, first),
    }
}

fn is_item_known(source: &DictSource, first: Option<u32>) -> bool
    ensures { result ≡ is_some (option_and_then (item_base_at (dictionary_view source.now)) first) }
{
    match first {
        None => false,
        Some(first) => has_item_base_at(source, first),
    }
}

// ---- uses

fn is_judged(path: &UsePath, condition: Option<u32>) -> bool
    ensures { result ≡ judged path.now condition }
{
    match path {
        UsePath::Global(_) => true,
        UsePath::Sibling(_) => true,
        UsePath::Inner(_) => base_under(condition) != 0,
        UsePath::Each(..) => true,
        UsePath::Through(..) => true,
        UsePath::SiblingThrough(..) => true,
    }
}

fn is_second_judged(source: &DictSource, path: &UsePath, first: Option<u32>) -> bool
    ensures { result ≡ second_judged (dictionary_view source.now) path.now first }
{
    match path {
        UsePath::Global(_) => false,
        UsePath::Sibling(_) => false,
        UsePath::Inner(_) => false,
        UsePath::Each(..) => is_list_known(source, first),
        UsePath::Through(..) => is_item_known(source, first),
        UsePath::SiblingThrough(..) => is_item_known(source, first),
    }
}

fn lacks_target(
    source: &DictSource,
    path: &UsePath,
    condition: Option<u32>,
    targets: Targets,
) -> bool
    ensures { result ≡ without_target (dictionary_view source.now) path.now condition targets }
{
    (is_judged(path, condition) && targets.first.is_none())
        || (is_second_judged(source, path, targets.first) && targets.second.is_none())
}

fn is_unknown_path(
    source: &DictSource,
    fact: u32,
    use_op: UseOp,
    condition: Option<u32>,
    path: &UsePath,
) -> bool
    ensures { result ≡ path_unknown (dictionary_view source.now) fact use_op condition (Some path.now) }
{
    if !is_in_place(source, fact, use_op, condition, path) {
        return false;
    }
    let targets = source.targets(fact, base_under(condition), path);
    lacks_target(source, path, condition, targets)
}

/// Whether the path, in its place, has a target that is no fact.
pub fn is_unknown_use(
    source: &DictSource,
    fact: u32,
    use_op: UseOp,
    condition: Option<u32>,
    used: &PathUse,
) -> bool
    ensures { result ≡ unknown_use (dictionary_view source.now) fact use_op condition (use_view used.now) }
{
    match used {
        PathUse::Spelled(path) => is_unknown_path(source, fact, use_op, condition, path),
        PathUse::Misspelled(_) => false,
    }
}

/// Whether a use path of the fact, in its place, names no fact.
pub fn has_unknown_path(source: &DictSource, number: u32, fact: &FactSource) -> bool
    ensures { result ≡ unknown_path (dictionary_view source.now) number (fact_view fact.now) }
{
    some_use_breaks(source, UseRule::UnknownPath, number, fact)
}
