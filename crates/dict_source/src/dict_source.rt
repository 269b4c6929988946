// Dictionaries as they are written: enums and numbered facts, found by path.
ghost use Rattle.std.specs.Prelude.{◌≡◌, ◌+◌, ◌<◌, ◌≤◌, ◌^◌, [], ◌∷◌, ◌++◌, length, map, slice_get, option_copied, option_map, vec_len, IfErr, IfNone, IfOk, IfSome, OnErr, OnOk};
ghost use Rattle.std.specs.List.{All};
ghost use Rattle.fact_paths.specs.declared.fact_path.FactPath.TheVariants as paths;
ghost use Rattle.value_text.specs.Enums.{Listed};
ghost use Rattle.dict_source.specs.Dictionary.{IsValid, IsWithinLimits, dictionary_view, with_fact};
ghost use Rattle.dict_source.specs.Facts.{fact_view};
ghost use Rattle.dict_source.specs.Finding.{Finds, IsGlobalSpelled, IsNumber, NoGlobalSpelled, fact_at, find_path, is_global, is_global_at};
ghost use Rattle.dict_source.specs.Forms.{IsWellFormed};
ghost use Rattle.dict_source.specs.PathIndex.{IsIndex, fact_noted};

use crate::fact_source::FactSource;
use crate::finding::{behind_slash, key_in, member_key};
use crate::lookup_table::LookupTable;
use crate::path_index::PathIndex;
use fact_paths::{FactPath, Name};
use std::alloc::{AllocError, Global};
use std::marker::Model;
use value_text::EnumLists;

/// A dictionary as it is written: lists of options, tables, and facts, which are numbered from 1.
#[derive(Drop)]
pub struct DictSource {
    enums: EnumLists,
    tables: Vec<LookupTable>,
    facts: Vec<FactSource>,
    index: PathIndex,
}

impl Model for DictSource {
    ghost use Rattle.dict_source.specs.Dictionary.{Written};
    ghost use Rattle.dict_source.specs.Sources.{IsSource};
    ghost use Rattle.dict_source.specs.contracts.fact_source.FactSource as fact;
    ghost use Rattle.std.specs.Coded.{codes};

    ghost Value = { Written };

    ghost coded = { Prim.hlevel (codes, fact.the_row.coded) };

    ghost view = { λ source. record { enums = source.enums; tables = source.tables.items; facts = source.facts.items } };

    ghost invariant = { λ source. IsSource (record { enums = source.enums; tables = source.tables.items; facts = source.facts.items }) source.index };
}

/// No memory was left for a fact, which comes back.
#[derive(Drop)]
pub struct Unpushed {
    pub fact: FactSource,
}

// Keeps the fact's number under its path, unless a number is kept there.
fn note_fact(index: &mut PathIndex, fact: &FactSource, number: u32) -> Result<(), AllocError>
    ensures noted { OnOk result (index.new ≡ fact_noted index.old (fact_view fact.now) number) }
    ensures kept { OnErr result (index.new ≡ index.old) }
{
    match &fact.path {
        None => Ok(()),
        Some(_) => index.note(key_in(fact.path_text.as_str()), number),
    }
}

// The index of the facts.
fn index_of(alloc: Global, facts: &[FactSource]) -> Result<PathIndex, AllocError>
    requires { length facts.now + 1 < 2 ^ 32 }
    ensures { IfOk result (IsIndex (map fact_view facts.now)) }
{
    let mut index = PathIndex::new(alloc);
    for (i, fact) in facts.iter().enumerate() {
        note_fact(&mut index, fact, i as u32 + 1)?;
    }
    Ok(index)
}

fn item_at(facts: &[FactSource], index: usize) -> Option<&FactSource>
    ensures { option_copied result ≡ slice_get facts.now index }
{
    facts.get(index)
}

// Whether it is a path `/N`.
fn is_global_path(path: Option<&FactPath>) -> bool
    ensures { result ≡ is_global (option_copied path.entry) }
{
    match path {
        None => false,
        Some(FactPath::Global(_)) => true,
        Some(FactPath::Member(_, _)) => false,
    }
}

impl DictSource {
    /// A dictionary without tables and facts, of at most 200 lists of at most 100 options. It takes no memory.
    pub fn new(alloc: Global, enums: EnumLists) -> DictSource
        requires lists { length enums ≤ 200 }
        requires options { All (λ (e : Listed). length e.options ≤ 100) enums }
        ensures { result ≡ record { enums = enums; tables = []; facts = [] } }
    {
        DictSource {
            enums,
            tables: Vec::new(alloc),
            facts: Vec::new(alloc),
            index: PathIndex::new(alloc),
        }
    }

    /// The dictionary of these facts.
    pub fn of_facts(
        alloc: Global,
        enums: EnumLists,
        tables: Vec<LookupTable>,
        facts: Vec<FactSource>,
    ) -> Result<DictSource, AllocError>
        requires { IsValid (record { enums = enums; tables = tables.items; facts = map fact_view facts.items }) }
        ensures { IfOk result (λ source. source ≡ record { enums = enums; tables = tables.items; facts = facts.items }) }
    {
        let index = index_of(alloc, facts.as_slice())?;
        Ok(DictSource {
            enums,
            tables,
            facts,
            index,
        })
    }

    /// Appends a well-formed fact, with which the limits are kept. It fails for want of memory alone.
    pub fn push(&mut self, fact: FactSource) -> Result<(), Unpushed>
        requires well_formed { IsWellFormed self.old.tables (fact_view fact) }
        requires limits { IsWithinLimits (with_fact (dictionary_view self.old) (fact_view fact)) }
        ensures appended { OnOk result (self.new ≡ record {
          enums = self.old.enums;
          tables = self.old.tables;
          facts = self.old.facts ++ fact ∷ [];
        }) }
        ensures kept { OnErr result (self.new ≡ self.old) }
        ensures returned { IfErr result (λ error. error ≡ record { fact = fact }) }
    {
        if self.facts.reserve(1).is_err() {
            return Err(Unpushed { fact });
        }
        let number = self.facts.len() as u32 + 1;
        if note_fact(&mut self.index, &fact, number).is_err() {
            return Err(Unpushed { fact });
        }
        self.facts.push(fact).unwrap();
        Ok(())
    }

    /// The facts, in their order.
    pub fn facts(&self) -> &[FactSource]
        ensures value { result.now ≡ self.now.facts }
        ensures valid { IsValid (dictionary_view self.now) }
    {
        self.facts.as_slice()
    }

    /// The lists of options.
    pub fn enums(&self) -> &EnumLists
        ensures { result.now ≡ self.now.enums }
    {
        &self.enums
    }

    /// The tables, in their order.
    pub fn tables(&self) -> &[LookupTable]
        ensures { result.now ≡ self.now.tables }
    {
        self.tables.as_slice()
    }

    /// The fact with this number.
    pub fn fact(&self, number: u32) -> Option<&FactSource>
        ensures { option_map fact_view (option_copied result) ≡ fact_at (dictionary_view self.now).facts number }
    {
        if number == 0 {
            return None;
        }
        item_at(self.facts(), number as usize - 1)
    }

    /// The first fact `/N`, by its number.
    pub fn find_global(&self, name: &Name) -> Option<u32>
        ensures { result ≡ find_path (dictionary_view self.now).facts (paths.Global name.now) }
    {
        self.index.get(name.as_str())
    }

    /// The first fact `/N/*/M`, by its number.
    pub fn find_member(&self, collection: &Name, member: &Name) -> Option<u32>
        ensures { result ≡ find_path (dictionary_view self.now).facts (paths.Member collection.now member.now) }
    {
        self.index.get(member_key(collection, member).as_str())
    }

    // Whether the fact with this number stands once.
    fn is_global(&self, number: u32) -> bool
        ensures { result ≡ is_global_at (dictionary_view self.now).facts number }
    {
        match self.fact(number) {
            None => false,
            Some(fact) => is_global_path(fact.path.as_ref()),
        }
    }

    /// The first fact with the path `/N` that the text spells, by its number. It takes no memory.
    pub fn find_global_text(&self, text: &str) -> Option<u32>
        ensures found { IfSome result (IsGlobalSpelled (dictionary_view self.now).facts text.now) }
        ensures none { IfNone result (NoGlobalSpelled (dictionary_view self.now).facts text.now) }
    {
        let number = self.index.get(behind_slash(text)?)?;
        if !self.is_global(number) {
            return None;
        }
        Some(number)
    }

    /// The first fact with the path, by its number. It takes no memory.
    pub fn find(&self, path: &FactPath) -> Option<u32>
        ensures value { result ≡ find_path (dictionary_view self.now).facts path.now }
        ensures first { Finds (dictionary_view self.now).facts path.now result }
        ensures within { IfSome result (IsNumber (dictionary_view self.now).facts) }
    {
        match path {
            FactPath::Global(name) => self.find_global(name),
            FactPath::Member(collection, member) => self.find_member(collection, member),
        }
    }
}
