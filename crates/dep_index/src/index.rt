// The readers of all facts.
ghost use Rattle.std.specs.Prelude.{◌≡◌, ◌≤◌, ℕ, List, [], ◌-◌, All, fold, if◌then◌else◌, IfOk, OnOk, length, vec_len};
ghost use Rattle.dict_source.specs.Dictionary.{dictionary_view};
ghost use Rattle.dictionary.specs.AcceptedParts.{accepted};
ghost use Rattle.dep_index.specs.Noting.{with_facts, with_mention, with_mentions};
ghost use Rattle.dep_index.specs.Readers.{IsIndex, IsIndexed, readers_of};

use crate::readers_of::{ReaderOf, ReadersOf};
use dict_source::Mention;
use dictionary::Dictionary;
use fact_values::NoMemory;
use std::alloc::Global;
use std::marker::Model;

/// For each fact, by its number from 1, the facts that mention it.
#[derive(Drop)]
pub struct Readers {
    by_fact: Vec<ReadersOf>,
}

impl Model for Readers {
    ghost use Rattle.std.specs.Prelude.{List};
    ghost use Rattle.dep_index.specs.declared.readers_of.ReaderOf.{ReaderOf};

    ghost Value = { List (List ReaderOf) };

    ghost view = { λ readers. readers.by_fact.items };
}

impl Readers {
    /// Each fact that mentions this one, once, by rising rank, and those of one rank by rising
    /// number.
    pub fn readers(&self, fact: u32) -> &[ReaderOf]
        requires { IsIndexed self.now fact }
        ensures { result.now ≡ readers_of self.now fact }
    {
        self.by_fact[fact as usize - 1].readers()
    }
}

/// The readers of the dictionary's facts, found in one pass over what they mention.
pub fn build(alloc: Global, dict: &Dictionary) -> Result<Readers, NoMemory>
    ensures { IfOk result (IsIndex (accepted dict.now)) }
{
    let mut by_fact = without_readers(alloc, dict.source().facts().len())?;
    let order = dict.by_rank();
    for reader in order {
        let mentions = dict.source().mentions(alloc, *reader)?;
        note_all(*reader, mentions.as_slice(), &mut by_fact)?;
    }
    Ok(Readers { by_fact })
}

// So many facts without readers.
fn without_readers(alloc: Global, count: usize) -> Result<Vec<ReadersOf>, NoMemory>
    ensures count { IfOk result (λ by_fact. vec_len by_fact ≡ count) }
    ensures empty { IfOk result (λ by_fact. (fact : ℕ) → readers_of by_fact.items fact ≡ []) }
{
    let mut by_fact = Vec::with_capacity(alloc, count)?;
    for _n in 0..count {
        by_fact.push(ReadersOf::new(alloc))?;
    }
    Ok(by_fact)
}

// Notes what a fact mentions.
fn note_all(reader: u32, mentions: &[Mention], by_fact: &mut Vec<ReadersOf>) -> Result<(), NoMemory>
    requires { All (λ m. IsIndexed by_fact.old.items m.fact) mentions.now }
    ensures count { vec_len by_fact.new ≡ vec_len by_fact.old }
    ensures noted { OnOk result ((fact : ℕ) → readers_of by_fact.new.items fact
        ≡ with_mentions fact reader (readers_of by_fact.old.items fact) mentions.now) }
{
    for mention in mentions {
        note_one(reader, *mention, by_fact)?;
    }
    Ok(())
}

// Notes one mention by a fact.
fn note_one(reader: u32, mention: Mention, by_fact: &mut Vec<ReadersOf>) -> Result<(), NoMemory>
    requires { IsIndexed by_fact.old.items mention.fact }
    ensures count { vec_len by_fact.new ≡ vec_len by_fact.old }
    ensures noted { OnOk result ((fact : ℕ) → readers_of by_fact.new.items fact
        ≡ with_mention fact reader (readers_of by_fact.old.items fact) mention) }
{
    by_fact[mention.fact as usize - 1].note(reader, mention.same)
}
