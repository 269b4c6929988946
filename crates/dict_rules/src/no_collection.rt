// The rule that a path through members names a collection or an item.
ghost use Rattle.std.specs.Prelude.{◌≡◌, option_copied, option_map, Some};
ghost use Rattle.dict_source.specs.Dictionary.{dictionary_view, is_collection};
ghost use Rattle.dict_source.specs.Facts.{fact_view, stated_view};
ghost use Rattle.dict_source.specs.Targets.{find_global};
ghost use Rattle.dict_source.specs.View.{use_view};
ghost use Rattle.dict_rules.specs.NoCollection.{goes_through_item as through_item, is_item as of_item, is_list as of_list, is_misread as misread, is_other as of_other, is_other_at as of_other_at, is_written_list as written_list, lacks_base as without_base, lacks_collection as without_collection, lacks_own_list as without_own_list, lacks_stated_list as without_stated_list, names_list as list_named, path_lacks_list as path_without_list};
ghost use Rattle.dict_rules.specs.NoCollection.{use_lacks_list as use_without_list};

use crate::use_op::UseOp;
use crate::uses::{UseRule, base_under, reads_collection, some_use_breaks};
use dict_source::{DictSource, FactSource, PathUse, TypeText};
use fact_paths::{FactPath, Name, UsePath};

// ---- kinds of stated types

/// Whether it is a collection, written or derived.
pub fn is_list(stated: &TypeText) -> bool
    ensures { result ≡ of_list (stated_view stated.now) }
{
    match stated {
        TypeText::Scalar(_) => false,
        TypeText::EnumOf(_) => false,
        TypeText::WritableList => true,
        TypeText::ListOf(_) => true,
        TypeText::ItemOf(_) => false,
    }
}

fn is_item(stated: &TypeText) -> bool
    ensures { result ≡ of_item (stated_view stated.now) }
{
    match stated {
        TypeText::Scalar(_) => false,
        TypeText::EnumOf(_) => false,
        TypeText::WritableList => false,
        TypeText::ListOf(_) => false,
        TypeText::ItemOf(_) => true,
    }
}

fn is_writable_list(stated: &TypeText) -> bool
    ensures { result ≡ is_collection (stated_view stated.now) }
{
    match stated {
        TypeText::Scalar(_) => false,
        TypeText::EnumOf(_) => false,
        TypeText::WritableList => true,
        TypeText::ListOf(_) => false,
        TypeText::ItemOf(_) => false,
    }
}

// ---- writable collections by name

fn is_written_list(fact: Option<&FactSource>) -> bool
    ensures { result ≡ written_list (option_map fact_view (option_copied fact.entry)) }
{
    match fact {
        None => false,
        Some(fact) => is_writable_list(&fact.stated),
    }
}

// Whether `/c` is a writable collection.
fn names_list(source: &DictSource, name: &Name) -> bool
    ensures { result ≡ list_named (dictionary_view source.now) (find_global (dictionary_view source.now) name.now) }
{
    match source.find_global(name) {
        None => false,
        Some(found) => is_written_list(source.fact(found)),
    }
}

fn path_lacks_own_list(source: &DictSource, path: &FactPath) -> bool
    ensures { result ≡ without_own_list (dictionary_view source.now) (Some path.now) }
{
    match path {
        FactPath::Global(_) => false,
        FactPath::Member(collection, _) => !names_list(source, collection),
    }
}

fn lacks_own_list(source: &DictSource, path: &Option<FactPath>) -> bool
    ensures { result ≡ without_own_list (dictionary_view source.now) path.now }
{
    match path {
        None => false,
        Some(path) => path_lacks_own_list(source, path),
    }
}

fn path_lacks_base(source: &DictSource, path: &UsePath) -> bool
    ensures { result ≡ without_base (dictionary_view source.now) (Some path.now) }
{
    match path {
        UsePath::Global(name) => !names_list(source, name),
        UsePath::Sibling(_) => false,
        UsePath::Inner(_) => false,
        UsePath::Each(..) => false,
        UsePath::Through(..) => false,
        UsePath::SiblingThrough(..) => false,
    }
}

fn lacks_base(source: &DictSource, used: &PathUse) -> bool
    ensures { result ≡ without_base (dictionary_view source.now) (use_view used.now).path }
{
    match used {
        PathUse::Spelled(path) => path_lacks_base(source, path),
        PathUse::Misspelled(_) => false,
    }
}

fn lacks_stated_list(source: &DictSource, stated: &TypeText) -> bool
    ensures { result ≡ without_stated_list (dictionary_view source.now) (stated_view stated.now) }
{
    match stated {
        TypeText::Scalar(_) => false,
        TypeText::EnumOf(_) => false,
        TypeText::WritableList => false,
        TypeText::ListOf(used) => lacks_base(source, used),
        TypeText::ItemOf(used) => lacks_base(source, used),
    }
}

// ---- uses

fn is_no_list(fact: Option<&FactSource>) -> bool
    ensures { result ≡ of_other of_list (option_map fact_view (option_copied fact.entry)) }
{
    match fact {
        None => false,
        Some(fact) => !is_list(&fact.stated),
    }
}

fn is_no_item(fact: Option<&FactSource>) -> bool
    ensures { result ≡ of_other of_item (option_map fact_view (option_copied fact.entry)) }
{
    match fact {
        None => false,
        Some(fact) => !is_item(&fact.stated),
    }
}

fn is_no_list_at(source: &DictSource, number: Option<u32>) -> bool
    ensures { result ≡ of_other_at of_list (dictionary_view source.now) number }
{
    match number {
        None => false,
        Some(number) => is_no_list(source.fact(number)),
    }
}

fn is_no_item_at(source: &DictSource, number: Option<u32>) -> bool
    ensures { result ≡ of_other_at of_item (dictionary_view source.now) number }
{
    match number {
        None => false,
        Some(number) => is_no_item(source.fact(number)),
    }
}

fn goes_through_item(path: &UsePath) -> bool
    ensures { result ≡ through_item path.now }
{
    match path {
        UsePath::Global(_) => false,
        UsePath::Sibling(_) => false,
        UsePath::Inner(_) => false,
        UsePath::Each(..) => false,
        UsePath::Through(..) => true,
        UsePath::SiblingThrough(..) => true,
    }
}

fn is_misread(source: &DictSource, use_op: UseOp, path: &UsePath, first: Option<u32>) -> bool
    ensures { result ≡ misread (dictionary_view source.now) use_op path.now first }
{
    (reads_collection(use_op) && is_no_list_at(source, first))
        || (goes_through_item(path) && is_no_item_at(source, first))
}

fn path_lacks_list(
    source: &DictSource,
    fact: u32,
    use_op: UseOp,
    condition: Option<u32>,
    path: &UsePath,
) -> bool
    ensures { result ≡ path_without_list (dictionary_view source.now) fact use_op condition (Some path.now) }
{
    if !reads_collection(use_op) && !goes_through_item(path) {
        return false;
    }
    let targets = source.targets(fact, base_under(condition), path);
    is_misread(source, use_op, path, targets.first)
}

/// Whether the first target has to be a collection or an item, and is a fact of another type.
pub fn use_lacks_list(
    source: &DictSource,
    fact: u32,
    use_op: UseOp,
    condition: Option<u32>,
    used: &PathUse,
) -> bool
    ensures { result ≡ use_without_list (dictionary_view source.now) fact use_op condition (use_view used.now) }
{
    match used {
        PathUse::Spelled(path) => path_lacks_list(source, fact, use_op, condition, path),
        PathUse::Misspelled(_) => false,
    }
}

/// Whether the fact has a path that names no collection or no item where it has to.
pub fn lacks_collection(source: &DictSource, number: u32, fact: &FactSource) -> bool
    ensures { result ≡ without_collection (dictionary_view source.now) number (fact_view fact.now) }
{
    if lacks_own_list(source, &fact.path) {
        return true;
    }
    if lacks_stated_list(source, &fact.stated) {
        return true;
    }
    some_use_breaks(source, UseRule::NoCollection, number, fact)
}
