// What a change did, read off the edit that undoes it.
ghost use Rattle.std.specs.Prelude.{◌≡◌, ◌&&◌, ℕ, Some, not, option_copied};
ghost use Rattle.fact_values.specs.declared.slot.Slot.{Slot as OneSlot};
ghost use Rattle.three_state.specs.Equality.{value_same};
ghost use Rattle.answers.specs.Change.{Fits};
ghost use Rattle.answers.specs.Meaning.{answered, change};
ghost use Rattle.dict_meaning.specs.Extension.{both_same, is_kept};
ghost use Rattle.dict_meaning.specs.Slots.{slot_same};
ghost use Rattle.dict_meaning.specs.Undone.{differs, is_extended, went};
ghost use Rattle.recalc.specs.Running.{is_that};
ghost use Rattle.recalc.specs.Seeding.{came_by, is_slot};

use answers::{Answers, Edit};
use fact_values::{Slot, Value, same};

/// A member that came to a collection.
#[derive(Clone, Copy)]
pub struct Came {
    pub list: u32,
    pub member: u32,
}

#[tactic(auto, using(three_state::proofs::EqualityLaws::answers_value_same))]
fn same_values(before: &Option<Value>, now: Option<&Value>) -> bool
    ensures { result ≡ both_same value_same before.now (option_copied now.entry) }
{
    match before {
        None => now.is_none(),
        Some(before) => match now {
            None => false,
            Some(now) => same(before, now),
        },
    }
}

#[tactic(auto, using(three_state::proofs::EqualityLaws::answers_value_same))]
fn is_kept(before: &Option<Value>, now: Option<&Value>) -> bool
    ensures { result ≡ is_kept value_same before.now (option_copied now.entry) }
{
    match before {
        None => true,
        Some(before) => match now {
            None => false,
            Some(now) => same(before, now),
        },
    }
}

fn unless_same(slot: Slot, same: bool) -> Option<Slot>
    ensures { (s : OneSlot) → is_slot result s ≡ (slot_same slot s && not same) }
{
    if same { None } else { Some(slot) }
}

/// What an edit did to the slot that it names.
#[derive(Clone, Copy)]
pub struct Effect {
    /// The slot, if its entry is another than before.
    pub own: Option<Slot>,
    /// Whether the answers extend those before.
    pub extended: bool,
}

/// What the change did, from one results at the slot.
pub fn effect_of(undo: &Edit, now: &Answers) -> Effect
    ensures own { (s : OneSlot) → is_slot result.own s ≡ differs (change undo.now) (answered now.now) s }
    ensures extended { result.extended ≡ is_extended (change undo.now) (answered now.now) }
{
    match undo {
        Edit::Value(slot, before) => of_value(*slot, before, now.value(*slot)),
        Edit::Override(slot, before) => of_override(*slot, before, now.override_of(*slot)),
        Edit::OpenList(list) => of_list(*list, false),
        Edit::CloseList(list) => of_list(*list, true),
        Edit::AddNew(list) => of_list(*list, false),
        Edit::TakeNew(list, closed) => of_list(*list, *closed),
        Edit::Remove(list, _) => of_list(*list, false),
        Edit::PutBack(list, _) => of_list(*list, false),
    }
}

fn of_value(slot: Slot, before: &Option<Value>, now: Option<&Value>) -> Effect
    ensures own { (s : OneSlot) → is_slot result.own s
        ≡ (slot_same slot s && not (both_same value_same before.now (option_copied now.entry))) }
    ensures extended { result.extended ≡ is_kept value_same before.now (option_copied now.entry) }
{
    Effect {
        own: unless_same(slot, same_values(before, now)),
        extended: is_kept(before, now),
    }
}

fn of_override(slot: Slot, before: &Option<Value>, now: Option<&Value>) -> Effect
    ensures own { (s : OneSlot) → is_slot result.own s
        ≡ (slot_same slot s && not (both_same value_same before.now (option_copied now.entry))) }
    ensures extended { result.extended ≡ both_same value_same before.now (option_copied now.entry) }
{
    let same = same_values(before, now);
    Effect {
        own: unless_same(slot, same),
        extended: same,
    }
}

fn of_list(list: u32, extended: bool) -> Effect
    ensures { result ≡ record { own = Some (record { fact = list; member = 0 }); extended = extended } }
{
    Effect {
        own: Some(Slot {
            fact: list,
            member: 0,
        }),
        extended,
    }
}

/// The member that came with the change, and its collection.
pub fn newcomer(undo: &Edit, now: &Answers) -> Option<Came>
    requires { Fits (change undo.now) (answered now.now) }
    ensures { result ≡ came_by (change undo.now) (answered now.now) }
{
    match undo {
        Edit::TakeNew(list, _) => Some(Came {
            list: *list,
            member: now.next_number() - 1,
        }),
        Edit::Remove(list, member) => Some(Came {
            list: *list,
            member: *member,
        }),
        Edit::Value(_, _) => None,
        Edit::Override(_, _) => None,
        Edit::OpenList(_) => None,
        Edit::CloseList(_) => None,
        Edit::AddNew(_) => None,
        Edit::PutBack(_, _) => None,
    }
}

/// The member that the change took away.
pub fn gone(undo: &Edit, now: &Answers) -> Option<u32>
    ensures { (m : ℕ) → is_that result m ≡ went (change undo.now) (answered now.now) m }
{
    match undo {
        Edit::AddNew(_) => Some(now.next_number()),
        Edit::PutBack(_, gone) => Some(gone.member()),
        Edit::Value(_, _) => None,
        Edit::Override(_, _) => None,
        Edit::OpenList(_) => None,
        Edit::CloseList(_) => None,
        Edit::TakeNew(_, _) => None,
        Edit::Remove(_, _) => None,
    }
}
