// The facts that a path in an expression names.
ghost use Rattle.std.specs.Prelude.{◌≡◌, option_copied, option_and_then, IfSome};
ghost use Rattle.dict_source.specs.Dictionary.{dictionary_view};
ghost use Rattle.dict_source.specs.Facts.{stated_view};
ghost use Rattle.dict_source.specs.Finding.{IsNumber};
ghost use Rattle.dict_source.specs.Targets.{AreTargets, base_name, collection_at, find_global, find_member, first_target, global_at, global_name, item_base, item_base_at, list_base, list_base_at, member_collection, second_target, targets};
ghost use Rattle.dict_source.specs.View.{use_view};

use crate::dict_source::DictSource;
use crate::fact_source::{FactSource, TypeText};
use crate::path_use::PathUse;
use fact_paths::{FactPath, Name, UsePath};

/// The facts that a use path names, by their numbers.
#[derive(Clone, Copy, Debug, PartialEq, Eq)]
pub struct Targets {
    pub first: Option<u32>,
    /// The field of a collection's members, or of an item's member.
    pub second: Option<u32>,
}

fn member_collection_of(path: &FactPath) -> Option<&Name>
    ensures { option_copied result ≡ member_collection path.now }
{
    match path {
        FactPath::Global(_) => None,
        FactPath::Member(collection, _) => Some(collection),
    }
}

fn global_name_of(path: &FactPath) -> Option<&Name>
    ensures { option_copied result ≡ global_name path.now }
{
    match path {
        FactPath::Global(name) => Some(name),
        FactPath::Member(..) => None,
    }
}

fn base_name_of(path: &UsePath) -> Option<&Name>
    ensures { option_copied result ≡ base_name path.now }
{
    match path {
        UsePath::Global(name) => Some(name),
        UsePath::Sibling(_)
        | UsePath::Inner(_)
        | UsePath::Each(..)
        | UsePath::Through(..)
        | UsePath::SiblingThrough(..) => None,
    }
}

fn base_of_use(used: &PathUse) -> Option<&Name>
    ensures { option_copied result ≡ option_and_then base_name (use_view used.now).path }
{
    match used {
        PathUse::Spelled(path) => base_name_of(path),
        PathUse::Misspelled(_) => None,
    }
}

fn global_of(path: &Option<FactPath>) -> Option<&Name>
    ensures { option_copied result ≡ option_and_then global_name path.now }
{
    match path {
        None => None,
        Some(path) => global_name_of(path),
    }
}

fn collection_of(path: &Option<FactPath>) -> Option<&Name>
    ensures { option_copied result ≡ option_and_then member_collection path.now }
{
    match path {
        None => None,
        Some(path) => member_collection_of(path),
    }
}

// The base of the collection that the fact lists.
fn list_base_of(fact: &FactSource) -> Option<&Name>
    ensures { option_copied result ≡ list_base fact.now.path (stated_view fact.now.stated) }
{
    match &fact.stated {
        TypeText::Scalar(_) => None,
        TypeText::EnumOf(_) => None,
        TypeText::WritableList => global_of(&fact.path),
        TypeText::ListOf(used) => base_of_use(used),
        TypeText::ItemOf(_) => None,
    }
}

// The base of the item that the fact is.
fn item_base_of(fact: &FactSource) -> Option<&Name>
    ensures { option_copied result ≡ item_base (stated_view fact.now.stated) }
{
    match &fact.stated {
        TypeText::Scalar(_) => None,
        TypeText::EnumOf(_) => None,
        TypeText::WritableList => None,
        TypeText::ListOf(_) => None,
        TypeText::ItemOf(used) => base_of_use(used),
    }
}

impl DictSource {
    // `c`, where it is a fact of the members of `/c`.
    fn collection_at(&self, fact: u32) -> Option<&Name>
        ensures { option_copied result ≡ collection_at (dictionary_view self.now) fact }
    {
        match self.fact(fact) {
            None => None,
            Some(fact) => collection_of(&fact.path),
        }
    }

    // `b`, where it is the fact `/b`.
    fn global_at(&self, fact: u32) -> Option<&Name>
        ensures { option_copied result ≡ global_at (dictionary_view self.now) fact }
    {
        match self.fact(fact) {
            None => None,
            Some(fact) => global_of(&fact.path),
        }
    }

    // The base of the collection that the first target lists.
    fn list_base_at(&self, first: Option<u32>) -> Option<&Name>
        ensures { option_copied result ≡ option_and_then (list_base_at (dictionary_view self.now)) first }
    {
        match self.fact(first?) {
            None => None,
            Some(fact) => list_base_of(fact),
        }
    }

    // The fact `/b`, where the first target lists members of `/b`.
    pub(crate) fn base_of_list(&self, first: Option<u32>) -> Option<u32>
        ensures { result ≡ option_and_then (find_global (dictionary_view self.now))
            (option_and_then (list_base_at (dictionary_view self.now)) first) }
    {
        match self.list_base_at(first) {
            None => None,
            Some(base) => self.find_global(base),
        }
    }

    // The base of the item that the first target is.
    fn item_base_at(&self, first: Option<u32>) -> Option<&Name>
        ensures { option_copied result ≡ option_and_then (item_base_at (dictionary_view self.now)) first }
    {
        match self.fact(first?) {
            None => None,
            Some(fact) => item_base_of(fact),
        }
    }

    // `/b/*/N`, where a base is known.
    fn find_under(&self, base: Option<&Name>, name: &Name) -> Option<u32>
        ensures { result ≡ find_member (dictionary_view self.now) name.now (option_copied base.entry) }
    {
        match base {
            None => None,
            Some(base) => self.find_member(base, name),
        }
    }

    // The first target.
    pub(crate) fn first_target(&self, fact: u32, base: u32, path: &UsePath) -> Option<u32>
        ensures { result ≡ first_target (dictionary_view self.now) fact base path.now }
    {
        match path {
            UsePath::Global(name) => self.find_global(name),
            UsePath::Sibling(name) => self.find_under(self.collection_at(fact), name),
            UsePath::Inner(name) => self.find_under(self.global_at(base), name),
            UsePath::Each(list, _) => self.find_global(list),
            UsePath::Through(item, _) => self.find_global(item),
            UsePath::SiblingThrough(item, _) => self.find_under(self.collection_at(fact), item),
        }
    }

    // The second target, where this is the first.
    fn second_target(&self, first: Option<u32>, path: &UsePath) -> Option<u32>
        ensures { result ≡ second_target (dictionary_view self.now) first path.now }
    {
        match path {
            UsePath::Global(_) => None,
            UsePath::Sibling(_) => None,
            UsePath::Inner(_) => None,
            UsePath::Each(_, field) => self.find_under(self.list_base_at(first), field),
            UsePath::Through(_, field) => self.find_under(self.item_base_at(first), field),
            UsePath::SiblingThrough(_, field) => self.find_under(self.item_base_at(first), field),
        }
    }

    /// The facts that the path names in this fact, under a condition over the collection `base`, or with `base` 0
    /// outside of conditions. Facts go by their numbers. It takes no memory.
    pub fn targets(&self, fact: u32, base: u32, path: &UsePath) -> Targets
        ensures value { result ≡ targets (dictionary_view self.now) fact base path.now }
        ensures table { AreTargets (dictionary_view self.now) fact base path.now result }
        ensures first_within { IfSome result.first (IsNumber (dictionary_view self.now).facts) }
        ensures second_within { IfSome result.second (IsNumber (dictionary_view self.now).facts) }
    {
        let first = self.first_target(fact, base, path);
        let second = self.second_target(first, path);
        Targets { first, second }
    }
}
