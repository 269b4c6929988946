// The edits that lead back, and those that lead forth again.
ghost use Rattle.std.specs.Prelude.{◌≡◌, ◌<◌, ◌↔◌, [], ◌∷◌, OnOk, OnErr, IfErr, IsOk, take, vec_len, vec_capacity, option_map};
ghost use Rattle.std.specs.declared.result.Result.TheVariants.{Err};
ghost use Rattle.answers.specs.Meaning.{answered, change};
ghost use Rattle.session_undo.specs.UndoState.{moved, moved_back, moved_forth};
ghost use Rattle.session_undo.specs.Directions.{changes_of, reversed};
ghost use Rattle.session_undo.specs.History.{stack, behind, ahead_of, place, first, NewestFits, NewestRoom, RoomAhead, CanPush, CanBack, CanForth};
ghost use Rattle.session_undo.specs.declared.refusal.UndoRefusal.TheVariants.{NothingToUndo, NothingToRedo};

use crate::direction::Direction;
use crate::refusal::UndoRefusal;
use answers::{Answers, Edit, Unapplied};
use fact_values::NoMemory;
use std::alloc::Global;

/// The changes of a session, each kept as the edit that leads back over it or forth again.
#[derive(Drop)]
pub struct History {
    back: Vec<Edit>,
    ahead: Vec<Edit>,
}

impl History {
    /// No change was made.
    pub fn new(alloc: Global) -> History
        ensures back { behind result ≡ [] }
        ensures ahead { ahead_of result ≡ [] }
    {
        History {
            back: Vec::new(alloc),
            ahead: Vec::new(alloc),
        }
    }

    /// Takes the memory that the next `push` needs.
    #[inline(always)]
    pub fn room(&mut self) -> Result<(), NoMemory>
        ensures back { behind self.new ≡ behind self.old }
        ensures ahead { ahead_of self.new ≡ ahead_of self.old }
        ensures room { OnOk result (CanPush self.new) }
        ensures has_room { CanPush self.old → IsOk result }
    {
        self.back.reserve(1)?;
        self.ahead.reserve(1)?;
        Ok(())
    }

    /// Adds a change, by its inverse, and cuts what lies ahead. For want of memory nothing changes,
    /// and the edit comes back.
    pub fn push(&mut self, inverse: Edit) -> Result<(), Unapplied>
        ensures back { OnOk result (behind self.new ≡ change inverse ∷ behind self.old) }
        ensures ahead { OnOk result (ahead_of self.new ≡ []) }
        ensures back_unchanged { OnErr result (behind self.new ≡ behind self.old) }
        ensures ahead_unchanged { OnErr result (ahead_of self.new ≡ ahead_of self.old) }
        ensures edit_returned { IfErr result (λ e. change e.edit ≡ change inverse) }
        ensures has_room { CanPush self.old → IsOk result }
        ensures room_ahead { OnOk result (RoomAhead self.new) }
    {
        match self.room() {
            Ok(()) => {
                drop(self.back.push(inverse));
                self.ahead.clear();
                Ok(())
            }
            Err(NoMemory) => Err(Unapplied { edit: inverse }),
        }
    }

    /// The edit that leads back over a step in this direction that was just made.
    pub fn returning(&self, direction: Direction) -> Option<&Edit>
        ensures { option_map (λ e. change e.now) result ≡ first (changes_of (reversed direction) self.now) }
    {
        match direction {
            Direction::Back => last(&self.ahead),
            Direction::Forth => last(&self.back),
        }
    }

    /// Forgets all changes that lead back but the newest, so many at most: those before them can't be undone any more.
    pub fn keep_newest(&mut self, most: usize)
        ensures back { behind self.new ≡ take most (behind self.old) }
        ensures ahead { ahead_of self.new ≡ ahead_of self.old }
    {
        keep_last(&mut self.back, most);
    }

    /// Goes to the answers before the last change that stands.
    pub fn back(&mut self, answers: &mut Answers) -> Result<(), UndoRefusal>
        requires { NewestFits (behind self.old) (answered answers.old) }
        ensures moved { OnOk result (place self.new answers.new ≡ moved_back (place self.old answers.old)) }
        ensures unchanged { OnErr result (place self.new answers.new ≡ place self.old answers.old) }
        ensures nothing { result ≡ Err NothingToUndo ↔ behind self.old ≡ [] }
        ensures no_redo { result ≡ Err NothingToRedo → ⊥ }
        ensures fits { OnOk result (NewestFits (ahead_of self.new) (answered answers.new)) }
        ensures can_forth { OnOk result (CanForth self.new answers.new) }
        ensures has_room { CanBack self.old answers.old → (behind self.old ≡ [] → ⊥) → IsOk result }
    {
        if self.back.is_empty() {
            return Err(UndoRefusal::NothingToUndo);
        }
        match move_newest(&mut self.back, &mut self.ahead, answers) {
            Ok(()) => Ok(()),
            Err(NoMemory) => Err(UndoRefusal::NoMemory),
        }
    }

    /// Goes to the answers after the last change that was undone.
    pub fn forth(&mut self, answers: &mut Answers) -> Result<(), UndoRefusal>
        requires { NewestFits (ahead_of self.old) (answered answers.old) }
        ensures moved { OnOk result (place self.new answers.new ≡ moved_forth (place self.old answers.old)) }
        ensures unchanged { OnErr result (place self.new answers.new ≡ place self.old answers.old) }
        ensures nothing { result ≡ Err NothingToRedo ↔ ahead_of self.old ≡ [] }
        ensures no_undo { result ≡ Err NothingToUndo → ⊥ }
        ensures fits { OnOk result (NewestFits (behind self.new) (answered answers.new)) }
        ensures can_back { OnOk result (CanBack self.new answers.new) }
        ensures has_room { CanForth self.old answers.old → (ahead_of self.old ≡ [] → ⊥) → IsOk result }
    {
        if self.ahead.is_empty() {
            return Err(UndoRefusal::NothingToRedo);
        }
        match move_newest(&mut self.ahead, &mut self.back, answers) {
            Ok(()) => Ok(()),
            Err(NoMemory) => Err(UndoRefusal::NoMemory),
        }
    }
}

/// The newest edit of a list.
#[tactic(auto, using(crate::proofs::StackLaws::first_change))]
fn last(edits: &[Edit]) -> Option<&Edit>
    ensures { option_map (λ e. change e.now) result ≡ first (stack edits.now) }
{
    edits.last()
}

/// Drops all edits of a list but the newest.
fn keep_last(edits: &mut Vec<Edit>, most: usize)
    ensures { stack edits.new.items ≡ take most (stack edits.old.items) }
{
    let count = edits.len();
    if count <= most {
        return;
    }
    edits.rotate_left(count - most);
    edits.truncate(most);
}

/// Applies the newest edit of a list, and puts its inverse on the other. For want of memory all is
/// as before.
fn move_newest(
    from: &mut Vec<Edit>,
    to: &mut Vec<Edit>,
    answers: &mut Answers,
) -> Result<(), NoMemory>
    requires fits { NewestFits (stack from.old.items) (answered answers.old) }
    ensures moved { OnOk result (record {
      back = stack from.new.items;
      now = answered answers.new;
      ahead = stack
          to.new.items;
    } ≡ moved (stack from.old.items) (answered answers.old) (stack to.old.items)) }
    ensures from_unchanged { OnErr result (stack from.new.items ≡ stack from.old.items) }
    ensures to_unchanged { OnErr result (stack to.new.items ≡ stack to.old.items) }
    ensures answers_unchanged { OnErr result (answered answers.new ≡ answered answers.old) }
    ensures inverse_fits { OnOk result ((stack from.old.items ≡ [] → ⊥) → NewestFits (stack to.new.items)
        (answered answers.new)) }
    ensures can_return { OnOk result ((stack from.old.items ≡ [] → ⊥) → NewestRoom (stack to.new.items) answers.new
        × (vec_len from.new < vec_capacity from.new)) }
    ensures has_room { NewestRoom (stack from.old.items) answers.old × (vec_len to.old < vec_capacity to.old)
        → IsOk result }
{
    to.reserve(1)?;
    // What is popped leaves room: a vector is no longer than its capacity.
    let _ = from.capacity();
    match from.pop() {
        None => Ok(()),
        Some(edit) => match answers.apply(edit) {
            Ok(inverse) => {
                drop(to.push(inverse));
                Ok(())
            }
            Err(unapplied) => {
                drop(from.push(unapplied.edit));
                Err(NoMemory)
            }
        },
    }
}
