// The type of answers, which keeps what is true of all answers.
ghost use Rattle.std.specs.Prelude.{◌≡◌, ◌≤◌, Option, IfOk, OnOk, OnErr, IfErr, IsOk, option_map, option_copied};
ghost use Rattle.std.specs.FinMap as map;
ghost use Rattle.answers.specs.Answered.{start, value_of};
ghost use Rattle.answers.specs.Change.{applied, inverse, Fits};
ghost use Rattle.answers.specs.WellFormed.{WellFormed, FromOne};
ghost use Rattle.answers.specs.GivenLists.{FactsRise, AreApart, AreBelow, IsOfLists};
ghost use Rattle.answers.specs.Meaning.{answered, change};
ghost use Rattle.answers.specs.Room.{HasRoom, HasPlaces};
ghost use Rattle.answers.specs.declared.edit.Side.TheVariants.{Answer, Override};

use crate::edit::{Edit, Side, Unapplied};
use crate::parts::Parts;
use fact_values::{Members, NoMemory, Slot, Value};
use std::alloc::Global;
use std::marker::Model;

/// The members of the open collections, the answers, the overrides, and the number of the next
/// member. The entries of a member are kept together.
#[derive(Drop)]
pub struct Answers {
    parts: Parts,
}

impl Model for Answers {
    ghost use Rattle.answers.specs.declared.parts.Parts.{Parts as Kept};
    ghost use Rattle.answers.specs.contracts.parts.Parts as kept;
    ghost use Rattle.answers.specs.WellFormed.{WellFormed, FromOne};
    ghost use Rattle.answers.specs.Meaning.{answered};

    ghost Value = { Kept };

    ghost coded = { kept.the_row.coded };

    ghost view = { λ a. a.parts };

    ghost invariant = { λ a. WellFormed (answered a.parts) × FromOne (answered a.parts) };
}

impl Answers {
    /// Nothing is answered, and the next member has the number 1.
    pub fn new(alloc: Global) -> Answers
        ensures { answered result ≡ start }
    {
        Answers {
            parts: Parts::starting_at(alloc, 1),
        }
    }

    /// These collections are open, each with its members, and this is the number of the next member.
    /// Nothing is answered or overridden.
    pub fn with_lists(
        alloc: Global,
        lists: Vec<(u32, Members)>,
        next: u32,
    ) -> Result<Answers, NoMemory>
        requires rise { FactsRise lists.items }
        requires separate { AreApart lists.items }
        requires below { AreBelow next lists.items }
        requires low { 1 ≤ next }
        requires high { next ≤ 1000001 }
        ensures lists { IfOk result (λ a. IsOfLists lists.items next (answered a)) }
        ensures well { IfOk result (λ a. WellFormed (answered a)) }
        ensures from_one { IfOk result (λ a. FromOne (answered a)) }
    {
        let mut parts = Parts::starting_at(alloc, next);
        match parts.open_lists(lists.as_slice()) {
            Ok(()) => {
                drop(lists);
                Ok(Answers { parts })
            }
            Err(NoMemory) => {
                drop(lists);
                drop(parts);
                Err(NoMemory)
            }
        }
    }

    /// The members of a collection in their order, if it is open.
    pub fn members(&self, list: u32) -> Option<&[u32]>
        ensures { option_map (λ s. s.now) result ≡ map.get (answered self.now).lists list }
    {
        self.parts.members(list)
    }

    /// The answer to a slot.
    pub fn value(&self, slot: Slot) -> Option<&Value>
        ensures { option_copied result ≡ value_of Answer (answered self.now) slot }
    {
        self.parts.value(Side::Answer, slot)
    }

    /// The override of a slot.
    pub fn override_of(&self, slot: Slot) -> Option<&Value>
        ensures { option_copied result ≡ value_of Override (answered self.now) slot }
    {
        self.parts.value(Side::Override, slot)
    }

    /// The number of the next member, from 1 to 1,000,001.
    pub fn next_number(&self) -> u32
        ensures number { result ≡ (answered self.now).next }
        ensures well { WellFormed (answered self.now) }
        ensures from_one { FromOne (answered self.now) }
    {
        self.parts.next_number()
    }

    /// Makes a change, and hands back its inverse. For want of memory all is as before, and the
    /// edit comes back.
    pub fn apply(&mut self, edit: Edit) -> Result<Edit, Unapplied>
        requires { Fits (change edit) (answered self.old) }
        ensures new { OnOk result (answered self.new ≡ applied (change edit) (answered self.old)) }
        ensures back { IfOk result (λ back. change back ≡ inverse (change edit) (answered self.old)) }
        ensures undoes { IfOk result (λ back. Fits (change back) (answered self.new)
            × (applied (change back) (answered self.new) ≡ answered self.old)) }
        ensures unchanged { OnErr result (answered self.new ≡ answered self.old) }
        ensures edit_returned { IfErr result (λ e. change e.edit ≡ change edit) }
        ensures room { HasRoom (change edit) self.old → IsOk result }
        ensures room_back { IfOk result (λ back. HasRoom (change back) self.new) }
        ensures places { OnOk result (HasPlaces (change edit) (answered self.old) self.new) }
        ensures well { WellFormed (answered self.new) }
    {
        self.parts.apply(edit)
    }
}
