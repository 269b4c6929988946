// The enums of a dictionary: their names and options.
ghost use Rattle.std.specs.Prelude.{◌≡◌, ◌+◌, ◌<◌, ◌≤◌, ◌^◌, [], ◌∷◌, ◌++◌, length, vec_len, option_copied, IfErr, IfSome, IsTrue, OnErr, OnOk, false};
ghost use Rattle.std.specs.List.{list_all};
ghost use Rattle.fact_paths.specs.Names.{is_name};
ghost use Rattle.value_text.specs.Enums.{Accepts, AreLists, Listed, Refuses, are_distinct as distinct, is_among as among, list_place, name_at, option_at, options_at, option_place_in, place_in, lists_of, names_of};
ghost use Rattle.value_text.specs.declared.enum_lists.ListFault.TheVariants.{NoMemory};

use fact_paths::Name;
use indexmap::IndexMap;
use std::alloc::{AllocFailed, Global};
use std::marker::Model;

/// Why a list of options was not added.
#[derive(Clone, Copy, Debug, PartialEq, Eq)]
pub enum ListFault {
    /// A list of that name is there, or an option stands twice.
    Same,
    /// The list has no option.
    Empty,
    /// No memory was left for it.
    NoMemory,
}

impl<T: Drop> From<AllocFailed<T>> for ListFault {
    ghost from_gives = { λ _ fault. fault ≡ NoMemory };

    fn from(_error: AllocFailed<T>) -> ListFault {
        ListFault::NoMemory
    }
}

/// The lists of options of a dictionary, each under a name of its own.
#[derive(Drop)]
pub struct EnumLists {
    lists: IndexMap<String, Vec<Name>>,
}

impl Model for EnumLists {
    ghost use Rattle.std.specs.Prelude.{List};
    ghost use Rattle.value_text.specs.Enums.{AreLists, Listed, lists_of};

    ghost Value = { List Listed };

    ghost view = { λ e. lists_of e.lists.entries };

    ghost invariant = { λ e. AreLists (lists_of e.lists.entries) };
}

impl EnumLists {
    /// No lists. It allocates nothing.
    pub fn new(alloc: Global) -> EnumLists
        ensures { result ≡ [] }
    {
        EnumLists {
            lists: IndexMap::new(alloc),
        }
    }

    /// Appends a list of options under a name.
    pub fn add(&mut self, name: Name, options: Vec<Name>) -> Result<(), ListFault>
        requires lists { length self.old + 1 < 2 ^ 32 }
        requires options { vec_len options < 2 ^ 32 }
        ensures accepted { OnOk result (Accepts self.old (record { name = name; options = options.items })) }
        ensures appended { OnOk result (self.new ≡ self.old ++ record { name = name; options = options.items } ∷ []) }
        ensures refused { IfErr result (Refuses self.old (record { name = name; options = options.items })) }
        ensures kept { OnErr result (self.new ≡ self.old) }
    {
        if has_list(&self.lists, name.as_str()) {
            return Err(ListFault::Same);
        }
        if !are_distinct(options.as_slice()) {
            return Err(ListFault::Same);
        }
        if options.is_empty() {
            return Err(ListFault::Empty);
        }
        append(&mut self.lists, name, options)?;
        Ok(())
    }

    /// The place of the list with this name, from 0.
    pub fn find(&self, name: &str) -> Option<u32>
        ensures { result ≡ list_place name.now self.now }
    {
        place_under(&self.lists, name).map(|place| place as u32)
    }

    /// How many lists there are.
    pub fn len(&self) -> u32
        ensures count { result ≡ length self.now }
        ensures lists { AreLists self.now }
    {
        self.lists.len() as u32
    }

    /// The option at a place of the list at a place, both from 0.
    pub fn option(&self, list: u32, place: u32) -> Option<&Name>
        ensures { option_copied result ≡ option_at self.now list place }
    {
        self.options(list)?.get(place as usize)
    }

    /// The place of an option in the list at a place, both from 0.
    pub fn option_place(&self, list: u32, option: &str) -> Option<u32>
        ensures { result ≡ option_place_in self.now list option.now }
    {
        let options = self.options(list)?;
        place_among(options, option)
    }

    /// The name of the list at a place, from 0.
    pub fn name(&self, list: u32) -> Option<&str>
        ensures { option_copied result ≡ name_at self.now list }
    {
        let (name, _) = self.lists.get_index(list as usize)?;
        Some(name.as_str())
    }

    /// The options of the list at a place, from 0.
    pub fn options(&self, list: u32) -> Option<&[Name]>
        ensures value { option_copied result ≡ options_at self.now list }
        ensures lists { AreLists self.now }
    {
        let (_, options) = self.lists.get_index(list as usize)?;
        Some(options.as_slice())
    }
}

// Whether a list of this name is there.
fn has_list(lists: &IndexMap<String, Vec<Name>>, name: &str) -> bool
    ensures { result ≡ among name.now (names_of (lists_of lists.now.entries)) }
{
    lists.contains_key(name)
}

// Appends a list whose name is new.
fn append(
    lists: &mut IndexMap<String, Vec<Name>>,
    name: Name,
    options: Vec<Name>,
) -> Result<(), ListFault>
    requires { among name (names_of (lists_of lists.old.entries)) ≡ false }
    ensures appended { OnOk result (lists_of lists.new.entries
        ≡ lists_of lists.old.entries ++ record { name = name; options = options.items } ∷ []) }
    ensures kept { OnErr result (lists_of lists.new.entries ≡ lists_of lists.old.entries) }
    ensures fault { IfErr result (λ fault. fault ≡ NoMemory) }
{
    lists.insert(name.into_string(), options)?;
    Ok(())
}

// The place of the list with this name.
fn place_under(lists: &IndexMap<String, Vec<Name>>, name: &str) -> Option<usize>
    ensures value { result ≡ list_place name.now (lists_of lists.now.entries) }
    ensures within { IfSome result (λ place. place < length lists.now.entries) }
{
    lists.get_index_of(name)
}

// The place of a text among names.
fn place_among(names: &[Name], text: &str) -> Option<u32>
    requires { length names.now < 2 ^ 32 }
    ensures { result ≡ place_in text.now names.now }
{
    position_among(names, text).map(|place| place as u32)
}

fn position_among(names: &[Name], text: &str) -> Option<usize>
    ensures value { result ≡ place_in text.now names.now }
    ensures within { IfSome result (λ place. place < length names.now) }
{
    names.iter().position(|name| text == name.as_str())
}

// Whether the text is one of the names.
fn is_among(text: &str, names: &[Name]) -> bool
    ensures { result ≡ among text.now names.now }
{
    names.iter().any(|name| text == name.as_str())
}

// Whether no name stands in the list twice.
fn are_distinct(names: &[Name]) -> bool
    ensures value { result ≡ distinct names.now }
    ensures names { IsTrue result → IsTrue (list_all is_name names.now) }
{
    for (i, name) in names.iter().enumerate() {
        if is_among(name.as_str(), &names[i + 1..]) {
            return false;
        }
    }
    true
}
