// The members of one collection.
ghost use Rattle.std.specs.Prelude.{◌≡◌, ◌<◌, ◌≤◌, ℕ, List, [], ◌∷◌, ◌++◌, length, insert, remove, IsTrue, is_some, Option, Some, None, unwrap_or, if◌then◌else◌, IfOk, true, vec_capacity, option_map};
ghost use Rattle.answers.specs.Lists.{IsIn, place_of, without_last};
ghost use Rattle.answers.specs.ListEdits.{edited, MayEdit};

use std::alloc::{AllocError, Global};
use std::marker::Model;

/// An edit of the members of a collection.
#[derive(Clone, Copy)]
pub enum ListEdit {
    /// Opens it, without members.
    Open,
    /// Closes it.
    Close,
    /// Appends a member, and opens it.
    Push(u32),
    /// Takes the last member out, and closes it or not.
    Pop(bool),
    /// Takes the member at a place out.
    TakeOut(u32),
    /// At a place, puts a member in.
    PutIn(u32, u32),
}

/// Room for the members of a collection, which is open or not.
#[derive(Drop)]
pub struct Listed {
    open: bool,
    members: Vec<u32>,
}

impl Model for Listed {
    ghost use Rattle.std.specs.Prelude.{◌≡◌, ◌≤◌, ℕ, List, [], Option, Some, None, false, if◌then◌else◌, vec_capacity, length};

    ghost Value = { Option (List ℕ) };

    ghost view = { λ l. if l.open then Some l.members.items else None };

    ghost invariant = { λ l. (100 ≤ vec_capacity l.members) × (length l.members.items ≤ 100)
        × (l.open ≡ false → l.members.items ≡ []) };
}

impl Listed {
    /// Room for 100 members. It isn't open.
    pub fn new(alloc: Global) -> Result<Listed, AllocError>
        ensures { IfOk result (λ l. l ≡ None) }
    {
        let members = Vec::with_capacity(alloc, 100)?;
        Ok(Listed {
            open: false,
            members,
        })
    }

    pub fn is_open(&self) -> bool
        ensures { result ≡ is_some self.now }
    {
        self.open
    }

    pub fn members(&self) -> Option<&[u32]>
        ensures { option_map (λ s. s.now) result ≡ self.now }
    {
        if self.open { Some(&self.members) } else { None }
    }

    fn open_empty(&mut self)
        requires { self.old ≡ None }
        ensures { self.new ≡ Some [] }
    {
        self.open = true;
    }

    /// Opens the list with these members.
    pub fn open_with(&mut self, members: &[u32])
        requires closed { self.old ≡ None }
        requires short { length members.now ≤ 100 }
        ensures { self.new ≡ Some members.now }
    {
        self.open = true;
        let _ = self.members.extend_from_slice(members);
    }

    fn close(&mut self)
        requires { self.old ≡ Some [] }
        ensures { self.new ≡ None }
    {
        self.open = false;
    }

    /// Appends a member, and opens the list.
    fn push(&mut self, member: u32)
        requires { length (unwrap_or self.old []) < 100 }
        ensures { self.new ≡ Some (unwrap_or self.old [] ++ member ∷ []) }
    {
        self.open = true;
        let _ = self.members.push(member);
    }

    /// Takes the last member out.
    fn pop(&mut self, close: bool)
        requires is_open { IsTrue (is_some self.old) }
        requires one { IsTrue close → without_last (unwrap_or self.old []) ≡ [] }
        ensures { self.new ≡ (if close then None else Some (without_last (unwrap_or self.old []))) }
    {
        let _ = self.members.pop();
        if close {
            self.open = false;
        }
    }

    /// The place of a member that is there.
    pub fn place_of(&self, member: u32) -> u32
        requires is_open { IsTrue (is_some self.now) }
        requires there { IsIn member (unwrap_or self.now []) }
        ensures { result ≡ place_of member (unwrap_or self.now []) }
    {
        find(&self.members, member) as u32
    }

    /// Takes the member at a place out.
    fn take_out(&mut self, place: u32)
        requires is_open { IsTrue (is_some self.old) }
        requires within { place < length (unwrap_or self.old []) }
        ensures { self.new ≡ Some (remove (unwrap_or self.old []) place) }
    {
        let _ = self.members.remove(place as usize);
    }

    /// Puts a member at a place.
    fn put_in(&mut self, place: u32, member: u32)
        requires is_open { IsTrue (is_some self.old) }
        requires short { length (unwrap_or self.old []) < 100 }
        requires within { place ≤ length (unwrap_or self.old []) }
        ensures { self.new ≡ Some (insert (unwrap_or self.old []) place member) }
    {
        let _ = self.members.insert(place as usize, member);
    }

    /// Makes an edit.
    pub fn edit(&mut self, edit: ListEdit)
        requires { MayEdit edit self.old }
        ensures { self.new ≡ edited edit self.old }
    {
        match edit {
            ListEdit::Open => self.open_empty(),
            ListEdit::Close => self.close(),
            ListEdit::Push(member) => self.push(member),
            ListEdit::Pop(close) => self.pop(close),
            ListEdit::TakeOut(place) => self.take_out(place),
            ListEdit::PutIn(place, member) => self.put_in(place, member),
        }
    }
}

/// The place of a member that is there.
fn find(members: &[u32], member: u32) -> usize
    requires there { IsIn member members.now }
    ensures place { result ≡ place_of member members.now }
    ensures within { result < length members.now }
{
    for i in 0..members.len() {
        if members[i] == member {
            return i;
        }
    }
    0
}
