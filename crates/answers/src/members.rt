// The entries of each member.
ghost use Rattle.std.specs.Prelude.{◌≡◌, ℕ, Option, Some, None, IfOk, OnOk, OnErr, IfErr, IsOk, IsSome, option_map, option_copied};
ghost use Rattle.std.specs.FinMap as map;
ghost use Rattle.answers.specs.Finite.{and_then, put_at};
ghost use Rattle.answers.specs.Answered.{Entry, blank, of_side};
ghost use Rattle.answers.specs.Change.{with_value};
ghost use Rattle.answers.specs.Meaning.{entry_of, maybe_entry, members_of};
ghost use Rattle.answers.specs.OpenedLists.{all_blank};
ghost use Rattle.answers.specs.Room.{HasMember, HasMemberFact, InEntry};

use crate::edit::Side;
use crate::entries::Entries;
use fact_values::{NoMemory, Value};
use indexmap::IndexMap;
use std::alloc::Global;

/// The entries of the members that stand. A member that was taken out keeps its place.
#[derive(Drop)]
pub struct Members {
    kept: IndexMap<u32, Option<Entries>>,
}

impl Members {
    pub fn new(alloc: Global) -> Members
        ensures { members_of result ≡ map.empty }
    {
        Members {
            kept: IndexMap::new(alloc),
        }
    }

    /// The value that stands at a fact of a member.
    #[tactic(auto, using(crate::proofs::FiniteLaws::laws))]
    pub fn get(&self, side: Side, member: u32, fact: u32) -> Option<&Value>
        ensures { option_copied result ≡ and_then (λ (e : Entry). map.get (of_side side e) fact)
            (map.get (members_of self.now) member) }
    {
        match self.kept.get(&member) {
            Some(Some(entries)) => entries.get(side, fact),
            Some(None) => None,
            None => None,
        }
    }

    /// A member stands from now on, with these entries. For want of memory they come back.
    pub fn store(&mut self, member: u32, entries: Entries) -> Result<(), Entries>
        ensures new { OnOk result (members_of self.new ≡ put_at (members_of self.old) member
            (Some (entry_of entries))) }
        ensures err { OnErr result (members_of self.new ≡ members_of self.old) }
        ensures value_returned { IfErr result (λ e. entry_of e ≡ entry_of entries) }
        ensures room { HasMember self.old member → IsOk result }
        ensures place { OnOk result (HasMember self.new member) }
    {
        match self.kept.insert(member, Some(entries)) {
            Ok(old) => {
                drop(old);
                Ok(())
            }
            Err(failed) => match failed.value.1 {
                Some(entries) => Err(entries),
                None => Ok(()),
            },
        }
    }

    /// A member stands from now on, without entries.
    pub fn store_blank(&mut self, alloc: Global, member: u32) -> Result<(), NoMemory>
        ensures new { OnOk result (members_of self.new ≡ put_at (members_of self.old) member (Some blank)) }
        ensures err { OnErr result (members_of self.new ≡ members_of self.old) }
        ensures room { HasMember self.old member → IsOk result }
        ensures place { OnOk result (HasMember self.new member) }
    {
        match self.store(member, Entries::new(alloc)) {
            Ok(()) => Ok(()),
            Err(entries) => {
                drop(entries);
                Err(NoMemory)
            }
        }
    }

    /// All these members stand from now on, without entries.
    pub fn store_all(&mut self, alloc: Global, members: &[u32]) -> Result<(), NoMemory>
        ensures { OnOk result (members_of self.new ≡ all_blank members.now (members_of self.old)) }
    {
        for member in members {
            self.store_blank(alloc, *member)?;
        }
        Ok(())
    }

    /// A member is gone. Its entries are handed back.
    #[tactic(auto, using(crate::proofs::FiniteLaws::laws))]
    pub fn take(&mut self, member: u32) -> Option<Entries>
        ensures old { maybe_entry result ≡ map.get (members_of self.old) member }
        ensures new { members_of self.new ≡ put_at (members_of self.old) member None }
        ensures place { IsSome result → HasMember self.new member }
    {
        if !self.kept.contains_key(&member) {
            return None;
        }
        match self.kept.insert(member, None) {
            Ok(Some(old)) => old,
            Ok(None) => None,
            Err(_) => None,
        }
    }

    /// Puts a value at a fact of a member, or takes it away, and hands back the one before.
    pub fn put_value(
        &mut self,
        side: Side,
        member: u32,
        fact: u32,
        value: Option<Value>,
    ) -> Result<Option<Value>, Option<Value>>
        requires { IsSome (map.get (members_of self.old) member) }
        ensures old { IfOk result (λ old. old ≡ and_then (λ (e : Entry). map.get (of_side side e) fact)
            (map.get (members_of self.old) member)) }
        ensures new { OnOk result (members_of self.new ≡ put_at (members_of self.old) member
            (option_map (with_value side fact value) (map.get (members_of self.old) member))) }
        ensures err { OnErr result (members_of self.new ≡ members_of self.old) }
        ensures value_returned { IfErr result (λ v. v ≡ value) }
        ensures room { HasMemberFact self.old member fact → IsOk result }
        ensures clearing { value ≡ None → IsOk result }
        ensures place { IsSome value → OnOk result (HasMemberFact self.new member fact) }
        ensures places { HasMemberFact self.old member fact → HasMemberFact self.new member fact }
    {
        match self.kept.get_mut(&member) {
            Some(kept) => put_in(side, kept, fact, value),
            None => Ok(None),
        }
    }
}

/// Puts a value into the entries of a member that stands.
fn put_in(
    side: Side,
    kept: &mut Option<Entries>,
    fact: u32,
    value: Option<Value>,
) -> Result<Option<Value>, Option<Value>>
    requires { IsSome kept.old }
    ensures old { IfOk result (λ old. old ≡ and_then (λ (e : Entry). map.get (of_side side e) fact)
        (maybe_entry kept.old)) }
    ensures new { OnOk result (maybe_entry kept.new ≡ option_map (with_value side fact value) (maybe_entry kept.old)) }
    ensures err { OnErr result (maybe_entry kept.new ≡ maybe_entry kept.old) }
    ensures value_returned { IfErr result (λ v. v ≡ value) }
    ensures room { InEntry kept.old fact → IsOk result }
    ensures clearing { value ≡ None → IsOk result }
    ensures place { IsSome value → OnOk result (InEntry kept.new fact) }
    ensures places { (k : ℕ) → InEntry kept.old k → InEntry kept.new k }
{
    match kept {
        Some(entries) => entries.put(side, fact, value),
        None => Err(value),
    }
}
