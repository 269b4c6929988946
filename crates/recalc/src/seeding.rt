// Which slots wait first.
ghost use Rattle.std.specs.Prelude.{◌≡◌, ◌||◌, ◌&&◌, ◌∷◌, [], ℕ, false, All, OnOk, Some};
ghost use Rattle.fact_values.specs.declared.slot.Slot.{Slot as OneSlot};
ghost use Rattle.answers.specs.Meaning.{answered, change};
ghost use Rattle.dict_source.specs.Finding.{IsNumber};
ghost use Rattle.dictionary.specs.AcceptedParts.{accepted};
ghost use Rattle.dict_meaning.specs.Slots.{stands};
ghost use Rattle.dict_meaning.specs.Undone.{differs, is_touched_first, IsUndone};
ghost use Rattle.recalc.specs.Running.{AreWaiting};
ghost use Rattle.recalc.specs.Seeding.{field_at, is_at, is_came, is_field, is_own, is_slot};
ghost use Rattle.dirty_slots.specs.Waiting.{waits};
ghost use Rattle.dirty_slots.specs.declared.dirty_slot.DirtySlot.{DirtySlot};

use crate::undone::{Came, newcomer};
use answers::{Answers, Edit};
use dictionary::Dictionary;
use dirty_slots::{DirtyQueue, DirtySlot};
use fact_values::{NoMemory, Slot};

// Lets the slots of a fact at these members wait.
fn add_at(
    queue: &mut DirtyQueue,
    dict: &Dictionary,
    fact: u32,
    members: &[u32],
) -> Result<(), NoMemory>
    requires { IsNumber (accepted dict.now).tree.facts fact }
    ensures waiting { OnOk result ((q : DirtySlot) → waits queue.new q
        ≡ (waits queue.old q || is_at (accepted dict.now) q members.now fact)) }
    ensures places { queue.new.places ≡ queue.old.places }
{
    let rank = dict.rank(fact);
    for member in members {
        queue.add(DirtySlot {
            rank,
            fact,
            member: *member,
        })?;
    }
    Ok(())
}

// The slots of a member that came.
fn add_came(
    queue: &mut DirtyQueue,
    dict: &Dictionary,
    came: Came,
    facts: &[u32],
) -> Result<(), NoMemory>
    requires { All (λ f. IsNumber (accepted dict.now).tree.facts f) facts.now }
    ensures waiting { OnOk result ((q : DirtySlot) → waits queue.new q
        ≡ (waits queue.old q || is_field (accepted dict.now) came facts.now q)) }
    ensures places { queue.new.places ≡ queue.old.places }
{
    for fact in facts {
        add_field(queue, dict, came, *fact)?;
    }
    Ok(())
}

fn add_field(
    queue: &mut DirtyQueue,
    dict: &Dictionary,
    came: Came,
    fact: u32,
) -> Result<(), NoMemory>
    requires { IsNumber (accepted dict.now).tree.facts fact }
    ensures waiting { OnOk result ((q : DirtySlot) → waits queue.new q
        ≡ (waits queue.old q || is_at (accepted dict.now) q (field_at (accepted dict.now).tree came fact) fact)) }
    ensures places { queue.new.places ≡ queue.old.places }
{
    if dict.home(fact) == came.list {
        add_at(queue, dict, fact, &[came.member])
    } else {
        Ok(())
    }
}

// The same of the facts, if one came.
fn add_came_if(
    queue: &mut DirtyQueue,
    dict: &Dictionary,
    came: Option<Came>,
    facts: &[u32],
) -> Result<(), NoMemory>
    requires { All (λ f. IsNumber (accepted dict.now).tree.facts f) facts.now }
    ensures waiting { OnOk result ((q : DirtySlot) → waits queue.new q
        ≡ (waits queue.old q || is_came (accepted dict.now) came facts.now q)) }
    ensures places { queue.new.places ≡ queue.old.places }
{
    match came {
        None => Ok(()),
        Some(came) => add_came(queue, dict, came, facts),
    }
}

fn add_own(queue: &mut DirtyQueue, dict: &Dictionary, own: Option<Slot>) -> Result<(), NoMemory>
    requires { (s : OneSlot) → own ≡ Some s → IsNumber (accepted dict.now).tree.facts s.fact }
    ensures waiting { OnOk result ((q : DirtySlot) → waits queue.new q
        ≡ (waits queue.old q || is_own (accepted dict.now) own q)) }
    ensures places { queue.new.places ≡ queue.old.places }
{
    match own {
        None => Ok(()),
        Some(slot) => queue.add(DirtySlot {
            rank: dict.rank(slot.fact),
            fact: slot.fact,
            member: slot.member,
        }),
    }
}

/// Lets the slots wait that the change touches by itself: those of a member that came, and the one
/// whose entry is another than before.
pub fn seed(
    queue: &mut DirtyQueue,
    dict: &Dictionary,
    now: &Answers,
    undo: &Edit,
    own: Option<Slot>,
) -> Result<(), NoMemory>
    requires own { (s : OneSlot) → is_slot own s ≡ differs (change undo.now) (answered now.now) s }
    requires undone { IsUndone (accepted dict.now) (change undo.now) (answered now.now) }
    requires empty { (q : DirtySlot) → waits queue.old q ≡ false }
    ensures waiting { OnOk result (AreWaiting (accepted dict.now) queue.new
        (λ s. stands (accepted dict.now).tree (answered now.now) s && is_touched_first (change undo.now)
        (answered now.now) s)) }
    ensures places { queue.new.places ≡ queue.old.places }
{
    let facts = dict.by_rank();
    let _source = dict.source();
    add_came_if(queue, dict, newcomer(undo, now), facts)?;
    add_own(queue, dict, own)
}
