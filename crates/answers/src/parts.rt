// The fields of `Answers`, and the edits of them.
ghost use Rattle.std.specs.Prelude.{◌≡◌, ◌<◌, ◌≤◌, ◌-◌, ℕ, [], Option, Some, None, IfOk, OnOk, OnErr, IfErr, IsOk, IsSome, is_some, option_map, option_copied};
ghost use Rattle.std.specs.FinMap as map;
ghost use Rattle.answers.specs.Answered.{start_at, entry, value_of, list_of};
ghost use Rattle.answers.specs.Change.{sets, adds, takes, removes, puts_back, applied, inverse, Fits};
ghost use Rattle.answers.specs.WellFormed.{WellFormed, FromOne, PutsFromOne};
ghost use Rattle.answers.specs.Meaning.{answered, change, entry_of};
ghost use Rattle.answers.specs.OpenedLists.{MayOpen, with_list, with_all};
ghost use Rattle.fact_values.specs.Members.{IsMemberList};
ghost use Rattle.answers.specs.Room.{HasSlot, HasList, HasMember, HasRoom, HasPlaces};

use crate::edit::{Edit, Gone, Side, Taken, Unapplied};
use crate::entries::Entries;
use crate::listed::ListEdit;
use crate::lists::Lists;
use crate::members::Members;
use fact_values::{Members as MemberList, NoMemory, Slot, Value};
use std::alloc::Global;

/// Answers, of which nothing is kept but what each call asks for and promises.
#[derive(Drop)]
pub struct Parts {
    alloc: Global,
    next: u32,
    lists: Lists,
    globals: Entries,
    members: Members,
}

impl Parts {
    /// Nothing is answered, and this is the number of the next member.
    pub fn starting_at(alloc: Global, next: u32) -> Parts
        ensures { answered result ≡ start_at next }
    {
        Parts {
            alloc,
            next,
            lists: Lists::new(alloc),
            globals: Entries::new(alloc),
            members: Members::new(alloc),
        }
    }

    /// Opens collections, each with its members, which have no entries.
    pub fn open_lists(&mut self, lists: &[(u32, MemberList)]) -> Result<(), NoMemory>
        requires { MayOpen lists.now (answered self.old) }
        ensures new { OnOk result (answered self.new ≡ with_all lists.now (answered self.old)) }
        ensures opened { OnOk result (MayOpen [] (answered self.new)) }
    {
        for opened in lists {
            self.open_list(opened)?;
        }
        Ok(())
    }

    fn open_list(&mut self, opened: &(u32, MemberList)) -> Result<(), NoMemory>
        requires { map.get (answered self.old).lists opened.now.0 ≡ None }
        ensures new { OnOk result (answered self.new ≡ with_list opened.now (answered self.old)) }
        ensures members { OnOk result (IsMemberList opened.now.1) }
    {
        let (list, members) = opened;
        self.lists.place(self.alloc, *list)?;
        self.members.store_all(self.alloc, members.as_slice())?;
        self.lists.open_with(*list, members.as_slice());
        Ok(())
    }

    /// The members of a collection, if it is open.
    pub fn members(&self, list: u32) -> Option<&[u32]>
        ensures { option_map (λ s. s.now) result ≡ map.get (answered self.now).lists list }
    {
        self.lists.members(list)
    }

    /// The answer to a slot, or its override.
    pub fn value(&self, side: Side, slot: Slot) -> Option<&Value>
        ensures { option_copied result ≡ value_of side (answered self.now) slot }
    {
        if slot.member == 0 {
            return self.globals.get(side, slot.fact);
        }
        self.members.get(side, slot.member, slot.fact)
    }

    pub fn next_number(&self) -> u32
        ensures { result ≡ (answered self.now).next }
    {
        self.next
    }

    /// Makes a change, and hands back its inverse. For want of memory all is as before, and the
    /// edit comes back.
    pub fn apply(&mut self, edit: Edit) -> Result<Edit, Unapplied>
        requires fits { Fits (change edit) (answered self.old) }
        requires well { WellFormed (answered self.old) }
        requires from_one { FromOne (answered self.old) }
        ensures new { OnOk result (answered self.new ≡ applied (change edit) (answered self.old)) }
        ensures back { IfOk result (λ back. change back ≡ inverse (change edit) (answered self.old)) }
        ensures err { OnErr result (answered self.new ≡ answered self.old) }
        ensures edit_returned { IfErr result (λ e. change e.edit ≡ change edit) }
        ensures room { HasRoom (change edit) self.old → IsOk result }
        ensures places { OnOk result (HasPlaces (change edit) (answered self.old) self.new) }
        ensures puts_from_one { PutsFromOne (change edit) }
    {
        match edit {
            Edit::Value(slot, value) => match self.put_value(Side::Answer, slot, value) {
                Ok(old) => Ok(Edit::Value(slot, old)),
                Err(value) => Err(Unapplied {
                    edit: Edit::Value(slot, value),
                }),
            },
            Edit::Override(slot, value) => match self.put_value(Side::Override, slot, value) {
                Ok(old) => Ok(Edit::Override(slot, old)),
                Err(value) => Err(Unapplied {
                    edit: Edit::Override(slot, value),
                }),
            },
            Edit::OpenList(list) => match self.lists.place(self.alloc, list) {
                Ok(()) => {
                    self.lists.edit(list, ListEdit::Open);
                    Ok(Edit::CloseList(list))
                }
                Err(_) => Err(Unapplied {
                    edit: Edit::OpenList(list),
                }),
            },
            Edit::CloseList(list) => {
                self.lists.edit(list, ListEdit::Close);
                Ok(Edit::OpenList(list))
            }
            Edit::AddNew(list) => match self.add_new(list) {
                Ok(was_open) => Ok(Edit::TakeNew(list, !was_open)),
                Err(_) => Err(Unapplied {
                    edit: Edit::AddNew(list),
                }),
            },
            Edit::TakeNew(list, close) => {
                self.take_new(list, close);
                Ok(Edit::AddNew(list))
            }
            Edit::Remove(list, member) => {
                let gone = self.remove(list, member);
                Ok(Edit::PutBack(list, gone))
            }
            Edit::PutBack(list, gone) => {
                let member = gone.member();
                match self.put_back(list, gone) {
                    Ok(()) => Ok(Edit::Remove(list, member)),
                    Err(gone) => Err(Unapplied {
                        edit: Edit::PutBack(list, gone),
                    }),
                }
            }
        }
    }

    fn put_value(
        &mut self,
        side: Side,
        slot: Slot,
        value: Option<Value>,
    ) -> Result<Option<Value>, Option<Value>>
        requires { IsSome (entry (answered self.old) slot.member) }
        ensures old { IfOk result (λ old. old ≡ value_of side (answered self.old) slot) }
        ensures new { OnOk result (answered self.new ≡ applied (sets side slot value) (answered self.old)) }
        ensures err { OnErr result (answered self.new ≡ answered self.old) }
        ensures value_returned { IfErr result (λ v. v ≡ value) }
        ensures room { HasSlot self.old slot → IsOk result }
        ensures clearing { value ≡ None → IsOk result }
        ensures place { IsSome value → OnOk result (HasSlot self.new slot) }
        ensures places { HasSlot self.old slot → HasSlot self.new slot }
    {
        if slot.member == 0 {
            return self.globals.put(side, slot.fact, value);
        }
        self.members.put_value(side, slot.member, slot.fact, value)
    }

    // Answers whether the collection was open.
    fn add_new(&mut self, list: u32) -> Result<bool, NoMemory>
        requires { Fits (adds list) (answered self.old) }
        ensures was_open { IfOk result (λ was. was ≡ is_some (map.get (answered self.old).lists list)) }
        ensures new { OnOk result (answered self.new ≡ applied (adds list) (answered self.old)) }
        ensures err { OnErr result (answered self.new ≡ answered self.old) }
        ensures room { HasRoom (adds list) self.old → IsOk result }
        ensures places { OnOk result (HasPlaces (adds list) (answered self.old) self.new) }
    {
        self.lists.place(self.alloc, list)?;
        let number = self.next;
        self.members.store_blank(self.alloc, number)?;
        let was_open = self.lists.members(list).is_some();
        self.lists.edit(list, ListEdit::Push(number));
        self.next += 1;
        Ok(was_open)
    }

    fn take_new(&mut self, list: u32, close: bool)
        requires fits { Fits (takes list close) (answered self.old) }
        requires low { 1 ≤ (answered self.old).next }
        ensures new { answered self.new ≡ applied (takes list close) (answered self.old) }
        ensures places { HasPlaces (takes list close) (answered self.old) self.new }
    {
        self.lists.edit(list, ListEdit::Pop(close));
        self.next -= 1;
        let _ = self.members.take(self.next);
    }

    fn remove(&mut self, list: u32, member: u32) -> Gone
        requires open { IsSome (map.get (answered self.old).lists list) }
        requires fits { Fits (removes list member) (answered self.old) }
        requires stands { IsSome (map.get (answered self.old).members member) }
        requires from_one { 1 ≤ member }
        ensures new { answered self.new ≡ applied (removes list member) (answered self.old) }
        ensures back { puts_back list result.place result.member (entry_of result.entries)
            ≡ inverse (removes list member) (answered self.old) }
        ensures places { HasPlaces (removes list member) (answered self.old) self.new }
    {
        let place = self.lists.place_of(list, member);
        self.lists.edit(list, ListEdit::TakeOut(place));
        match self.members.take(member) {
            Some(entries) => Gone::new(place, member, entries),
            None => Gone::new(place, member, Entries::new(self.alloc)),
        }
    }

    fn put_back(&mut self, list: u32, gone: Gone) -> Result<(), Gone>
        requires { Fits (puts_back list gone.place gone.member (entry_of gone.entries)) (answered self.old) }
        ensures new { OnOk result (answered self.new ≡ applied
            (puts_back list gone.place gone.member (entry_of gone.entries)) (answered self.old)) }
        ensures err { OnErr result (answered self.new ≡ answered self.old) }
        ensures gone_returned { IfErr result (λ g. puts_back list g.place g.member (entry_of g.entries)
            ≡ puts_back list gone.place gone.member (entry_of gone.entries)) }
        ensures room { HasMember self.old.members gone.member → IsOk result }
        ensures places { OnOk result (HasList self.new.lists list × HasMember self.new.members gone.member) }
    {
        let Taken {
            place,
            member,
            entries,
        } = gone.into_taken();
        match self.members.store(member, entries) {
            Ok(()) => {
                self.lists.edit(list, ListEdit::PutIn(place, member));
                Ok(())
            }
            Err(entries) => Err(Gone::new(place, member, entries)),
        }
    }
}
