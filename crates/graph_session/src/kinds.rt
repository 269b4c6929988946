// Which commands a fact is for.
ghost use Rattle.std.specs.Prelude.{◌≡◌};
ghost use Rattle.dict_source.specs.Dictionary.{is_collection};
ghost use Rattle.dict_source.specs.Facts.{fact_view, stated_view};
ghost use Rattle.dict_meaning.specs.Fits.{is_answered_by, is_list as is_list_fact, is_overridden_by, is_writable as writable, names_members as names};
ghost use Rattle.graph_session.specs.Rules.{rules, tree_of};

use dict_source::{FactSource, TypeText};
use dictionary::Dictionary;

fn is_list_type(stated: &TypeText) -> bool
    ensures { result ≡ is_collection (stated_view stated.now) }
{
    match stated {
        TypeText::WritableList => true,
        TypeText::Scalar(_) => false,
        TypeText::EnumOf(_) => false,
        TypeText::ListOf(_) => false,
        TypeText::ItemOf(_) => false,
    }
}

// Whether its values name members.
fn names_members(stated: &TypeText) -> bool
    ensures { result ≡ names (stated_view stated.now) }
{
    match stated {
        TypeText::WritableList => true,
        TypeText::Scalar(_) => false,
        TypeText::EnumOf(_) => false,
        TypeText::ListOf(_) => true,
        TypeText::ItemOf(_) => true,
    }
}

fn is_writable(fact: &FactSource) -> bool
    ensures { result ≡ writable (fact_view fact.now) }
{
    fact.main.is_none()
}

/// Whether it is a writable collection.
pub fn is_list(dict: &Dictionary, fact: u32) -> bool
    ensures { result ≡ is_list_fact (tree_of (rules dict.now)) fact }
{
    match dict.source().fact(fact) {
        None => false,
        Some(found) => is_list_type(&found.stated),
    }
}

/// Whether it is a writable fact of another type.
pub fn is_answered(dict: &Dictionary, fact: u32) -> bool
    ensures { result ≡ is_answered_by (tree_of (rules dict.now)) fact }
{
    match dict.source().fact(fact) {
        None => false,
        Some(found) => is_writable(found) && !is_list_type(&found.stated),
    }
}

/// Whether it is a derived fact whose values name no members.
pub fn is_overridden(dict: &Dictionary, fact: u32) -> bool
    ensures { result ≡ is_overridden_by (tree_of (rules dict.now)) fact }
{
    match dict.source().fact(fact) {
        None => false,
        Some(found) => !is_writable(found) && !names_members(&found.stated),
    }
}
