// The members of each collection.
ghost use Rattle.std.specs.Prelude.{◌≡◌, ◌<◌, ◌≤◌, ◌++◌, ◌∷◌, [], ℕ, length, insert, IsTrue, is_some, IsSome, Option, Some, None, unwrap_or, if◌then◌else◌, true, nat_eq, OnOk, OnErr, IsOk, option_map};
ghost use Rattle.std.specs.FinMap as map;
ghost use Rattle.answers.specs.Finite.{put_at};
ghost use Rattle.answers.specs.Lists.{IsIn, place_of};
ghost use Rattle.answers.specs.ListEdits.{edited, MayEdit};
ghost use Rattle.answers.specs.Meaning.{lists_of};
ghost use Rattle.answers.specs.Room.{HasList};

use crate::listed::{ListEdit, Listed};
use fact_values::NoMemory;
use indexmap::IndexMap;
use std::alloc::Global;

/// The lists of the collections. One that was closed keeps its place.
#[derive(Drop)]
pub struct Lists {
    kept: IndexMap<u32, Listed>,
}

impl Lists {
    pub fn new(alloc: Global) -> Lists
        ensures { lists_of result ≡ map.empty }
    {
        Lists {
            kept: IndexMap::new(alloc),
        }
    }

    #[tactic(auto, using(crate::proofs::FiniteLaws::laws))]
    pub fn members(&self, list: u32) -> Option<&[u32]>
        ensures { option_map (λ s. s.now) result ≡ map.get (lists_of self.now) list }
    {
        match self.kept.get(&list) {
            Some(listed) => listed.members(),
            None => None,
        }
    }

    /// Makes a place for a collection, and room for all its members.
    pub fn place(&mut self, alloc: Global, list: u32) -> Result<(), NoMemory>
        ensures same { lists_of self.new ≡ lists_of self.old }
        ensures has_place { OnOk result (HasList self.new list) }
        ensures room { HasList self.old list → IsOk result }
    {
        if self.kept.contains_key(&list) {
            return Ok(());
        }
        let listed = Listed::new(alloc)?;
        match self.kept.insert(list, listed) {
            Ok(old) => {
                drop(old);
                Ok(())
            }
            Err(refused) => {
                drop(refused);
                Err(NoMemory)
            }
        }
    }

    /// Opens a collection that has a place, with these members.
    pub fn open_with(&mut self, list: u32, members: &[u32])
        requires place { HasList self.old list }
        requires closed { map.get (lists_of self.old) list ≡ None }
        requires short { length members.now ≤ 100 }
        ensures { lists_of self.new ≡ put_at (lists_of self.old) list (Some members.now) }
    {
        match self.kept.get_mut(&list) {
            Some(listed) => listed.open_with(members),
            None => (),
        }
    }

    /// The place of a member in its collection.
    #[tactic(auto, using(crate::proofs::FiniteLaws::laws))]
    pub fn place_of(&self, list: u32, member: u32) -> u32
        requires is_open { IsSome (map.get (lists_of self.now) list) }
        requires there { IsIn member (unwrap_or (map.get (lists_of self.now) list) []) }
        ensures { result ≡ place_of member (unwrap_or (map.get (lists_of self.now) list) []) }
    {
        match self.kept.get(&list) {
            Some(listed) => listed.place_of(member),
            None => 0,
        }
    }

    /// Edits the members of a collection that has a place.
    pub fn edit(&mut self, list: u32, edit: ListEdit)
        requires place { HasList self.old list }
        requires fits { MayEdit edit (map.get (lists_of self.old) list) }
        ensures new { lists_of self.new ≡ put_at (lists_of self.old) list
            (edited edit (map.get (lists_of self.old) list)) }
        ensures has_place { HasList self.new list }
    {
        match self.kept.get_mut(&list) {
            Some(listed) => listed.edit(edit),
            None => (),
        }
    }
}
