// The rule that paths are of the grammar.
ghost use Rattle.std.specs.Prelude.{◌≡◌, is_none};
ghost use Rattle.dict_source.specs.Dictionary.{dictionary_view};
ghost use Rattle.dict_source.specs.Facts.{fact_view, stated_view};
ghost use Rattle.dict_source.specs.View.{use_view};
ghost use Rattle.dict_rules.specs.BadPath.{is_bad_base as bad_base, is_bad_path as bad_path, is_bad_stated as bad_stated, is_other_form as other_form};

use crate::uses::{UseRule, some_use_breaks};
use dict_source::{DictSource, FactSource, PathUse, TypeText};
use fact_paths::UsePath;

fn is_other_form(path: &UsePath) -> bool
    ensures { result ≡ other_form path.now }
{
    match path {
        UsePath::Global(_) => false,
        UsePath::Sibling(_) => true,
        UsePath::Inner(_) => true,
        UsePath::Each(..) => true,
        UsePath::Through(..) => true,
        UsePath::SiblingThrough(..) => true,
    }
}

fn is_bad_base(used: &PathUse) -> bool
    ensures { result ≡ bad_base (use_view used.now).path }
{
    match used {
        PathUse::Spelled(path) => is_other_form(path),
        PathUse::Misspelled(_) => true,
    }
}

fn is_bad_stated(stated: &TypeText) -> bool
    ensures { result ≡ bad_stated (stated_view stated.now) }
{
    match stated {
        TypeText::Scalar(_) => false,
        TypeText::EnumOf(_) => false,
        TypeText::WritableList => false,
        TypeText::ListOf(used) => is_bad_base(used),
        TypeText::ItemOf(used) => is_bad_base(used),
    }
}

/// Whether the use's text spells no use path.
pub fn is_bad_use(used: &PathUse) -> bool
    ensures { result ≡ is_none (use_view used.now).path }
{
    match used {
        PathUse::Spelled(_) => false,
        PathUse::Misspelled(_) => true,
    }
}

/// Whether the fact has a path that the grammar doesn't read.
pub fn is_bad_path(source: &DictSource, number: u32, fact: &FactSource) -> bool
    ensures { result ≡ bad_path (dictionary_view source.now) number (fact_view fact.now) }
{
    if fact.path.is_none() {
        return true;
    }
    if is_bad_stated(&fact.stated) {
        return true;
    }
    some_use_breaks(source, UseRule::BadPath, number, fact)
}
