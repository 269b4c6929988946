// The slots that wait and have no place, those of the lowest rank first.
ghost use Rattle.std.specs.Prelude.{◌≡◌, ◌≤◌, ◌<◌, ◌^◌, ◌||◌, ◌&&◌, not, false, IfNone, IfOk, IfSome, IsTrue, OnErr, OnOk};
ghost use Rattle.std.specs.BTreeSet.{btree_set_len};
ghost use Rattle.dirty_slots.specs.MemberBits.{has_in, head_of, Headed, lower};
ghost use Rattle.dirty_slots.specs.Waiting.{dirty_same, is_among, is_unplaced};
ghost use Rattle.dirty_slots.specs.declared.dirty_slot.DirtySlot.{DirtySlot as OneSlot};

use crate::dirty_slot::DirtySlot;
use crate::member_bits::{self, MemberBits};
use fact_values::NoMemory;
use std::alloc::Global;
use std::collections::BTreeSet;
use std::marker::Model;

/// Slots that wait. Contracts see of each slot whether it does.
///
/// A fact's members are numbered from 1 in the order of their making, and many of one fact wait at once. So each waits as
/// a bit in the row of its fact, which takes no search, and a set in order has only the facts of which some may wait, each
/// as the slot of its member 0. A row takes the rank of the first slot in it; a slot of another rank, of a member with a
/// high number, or of a fact without a row, waits in a set of its own.
#[derive(Drop)]
pub struct UnplacedSlots {
    rows: Vec<MemberBits>,
    heads: BTreeSet<DirtySlot>,
    others: BTreeSet<DirtySlot>,
}

impl Model for UnplacedSlots {
    ghost use Rattle.dirty_slots.specs.MemberBits.{Headed};
    ghost use Rattle.dirty_slots.specs.Waiting.{Unplaced};

    ghost Value = { Unplaced };

    ghost view = { λ queue. record { rows = queue.rows.items; others = queue.others.keys } };

    ghost invariant = { λ queue. Headed queue.rows.items queue.heads.keys };
}

impl UnplacedSlots {
    /// Nothing waits. So many facts, by their numbers from 1, have a row.
    pub fn new(alloc: Global, facts: usize) -> Result<UnplacedSlots, NoMemory>
        requires { facts < 2 ^ 63 }
        ensures { IfOk result (λ queue. (q : OneSlot) → is_unplaced queue q ≡ false) }
    {
        let rows = member_bits::new_rows(alloc, facts + 1)?;
        Ok(UnplacedSlots {
            rows,
            heads: BTreeSet::new(alloc),
            others: BTreeSet::new(alloc),
        })
    }

    /// Nothing waits any more. It takes no memory.
    pub fn clear(&mut self)
        ensures { (q : OneSlot) → is_unplaced self.new q ≡ false }
    {
        member_bits::clear(&mut self.rows);
        self.heads.clear();
        self.others.clear();
    }

    /// Lets one more wait, which may wait already.
    #[inline(always)]
    pub fn add(&mut self, dirty: DirtySlot) -> Result<(), NoMemory>
        ensures ok { OnOk result ((q : OneSlot) → is_unplaced self.new q ≡ (dirty_same q dirty || is_unplaced self.old q)) }
        ensures err { OnErr result ((q : OneSlot) → is_unplaced self.new q ≡ is_unplaced self.old q) }
    {
        if !member_bits::is_of(&mut self.rows, dirty) {
            return add_to(&mut self.others, dirty);
        }
        if member_bits::first_of(&mut self.rows, dirty).is_none() {
            add_to(&mut self.heads, head_of(dirty))?;
        }
        member_bits::put(&mut self.rows, dirty)
    }

    /// Takes out one of the lowest rank.
    pub fn pop(&mut self) -> Option<DirtySlot>
        ensures none { IfNone result ((q : OneSlot) → is_unplaced self.old q ≡ false) }
        ensures unchanged { IfNone result (self.new ≡ self.old) }
        ensures some { IfSome result (λ dirty. IsTrue (is_unplaced self.old dirty)) }
        ensures rest { IfSome result (λ dirty. (q : OneSlot)
            → is_unplaced self.new q ≡ (is_unplaced self.old q && not (dirty_same q dirty))) }
        ensures least { IfSome result (λ dirty. (q : OneSlot)
            → IsTrue (is_unplaced self.old q) → dirty.rank ≤ q.rank) }
    {
        let dirty = self.first()?;
        self.remove(dirty);
        Some(dirty)
    }

    /// Takes out this one, if it waits. It takes no memory.
    #[inline(always)]
    pub fn remove(&mut self, dirty: DirtySlot)
        ensures { (q : OneSlot) → is_unplaced self.new q ≡ (is_unplaced self.old q && not (dirty_same q dirty)) }
    {
        member_bits::remove(&mut self.rows, dirty);
        take_from(&mut self.others, dirty);
    }

    /// Takes out one of the lowest rank, if that is below this one.
    pub fn pop_below(&mut self, rank: u32) -> Option<DirtySlot>
        ensures none { IfNone result ((q : OneSlot) → IsTrue (is_unplaced self.old q) → rank ≤ q.rank) }
        ensures unchanged { IfNone result (self.new ≡ self.old) }
        ensures below { IfSome result (λ dirty. dirty.rank < rank) }
        ensures some { IfSome result (λ dirty. IsTrue (is_unplaced self.old dirty)) }
        ensures rest { IfSome result (λ dirty. (q : OneSlot)
            → is_unplaced self.new q ≡ (is_unplaced self.old q && not (dirty_same q dirty))) }
        ensures least { IfSome result (λ dirty. (q : OneSlot)
            → IsTrue (is_unplaced self.old q) → dirty.rank ≤ q.rank) }
    {
        let dirty = self.first()?;
        if dirty.rank < rank {
            self.remove(dirty);
            Some(dirty)
        } else {
            None
        }
    }

    // One of the lowest rank.
    fn first(&mut self) -> Option<DirtySlot>
        ensures none { IfNone result ((q : OneSlot) → is_unplaced self.old q ≡ false) }
        ensures some { IfSome result (λ dirty. IsTrue (is_unplaced self.old dirty)) }
        ensures least { IfSome result (λ dirty. (q : OneSlot)
            → IsTrue (is_unplaced self.old q) → dirty.rank ≤ q.rank) }
        ensures unchanged { self.new ≡ self.old }
    {
        let in_rows = first_headed(&mut self.rows, &mut self.heads);
        lower(in_rows, lowest(&self.others))
    }
}

// The head of a slot's fact.
fn head_of(dirty: DirtySlot) -> DirtySlot
    ensures { result ≡ head_of dirty }
{
    DirtySlot {
        rank: dirty.rank,
        fact: dirty.fact,
        member: 0,
    }
}

// Of two slots, one of the lower rank.
fn lower(p: Option<DirtySlot>, q: Option<DirtySlot>) -> Option<DirtySlot>
    ensures { result ≡ lower p q }
{
    match p {
        None => q,
        Some(a) => match q {
            None => Some(a),
            Some(b) => if b.rank < a.rank { Some(b) } else { Some(a) },
        },
    }
}

// A slot of the lowest rank in rows. Heads before it, of whose fact none waits, are taken out.
fn first_headed(rows: &mut [MemberBits], heads: &mut BTreeSet<DirtySlot>) -> Option<DirtySlot>
    requires { Headed rows.old heads.old.keys }
    ensures none { IfNone result ((q : OneSlot) → has_in rows.old q ≡ false) }
    ensures some { IfSome result (λ dirty. IsTrue (has_in rows.old dirty)) }
    ensures least { IfSome result (λ dirty. (q : OneSlot)
        → IsTrue (has_in rows.old q) → dirty.rank ≤ q.rank) }
    ensures headed { Headed rows.new heads.new.keys }
    ensures unchanged { rows.new ≡ rows.old }
{
    while let Some(head) = lowest(heads) {
        let found = member_bits::first_of(rows, head);
        if found.is_some() {
            return found;
        }
        take(heads, head);
    }
    None
}

fn lowest(set: &BTreeSet<DirtySlot>) -> Option<DirtySlot>
    ensures none { IfNone result ((q : OneSlot) → is_among set.now.keys q ≡ false) }
    ensures some { IfSome result (λ dirty. IsTrue (is_among set.now.keys dirty)) }
    ensures least { IfSome result (λ dirty. (q : OneSlot)
        → IsTrue (is_among set.now.keys q) → dirty.rank ≤ q.rank) }
{
    let first = set.first()?;
    Some(*first)
}

#[inline(never)]
fn add_to(set: &mut BTreeSet<DirtySlot>, dirty: DirtySlot) -> Result<(), NoMemory>
    ensures ok { OnOk result ((q : OneSlot) → is_among set.new.keys q ≡ (dirty_same q dirty || is_among set.old.keys q)) }
    ensures err { OnErr result ((q : OneSlot) → is_among set.new.keys q ≡ is_among set.old.keys q) }
{
    set.insert(dirty)?;
    Ok(())
}

#[inline(always)]
fn take_from(set: &mut BTreeSet<DirtySlot>, dirty: DirtySlot)
    ensures { (q : OneSlot) → is_among set.new.keys q ≡ (is_among set.old.keys q && not (dirty_same q dirty)) }
{
    if !set.is_empty() {
        take(set, dirty);
    }
}

#[inline(never)]
fn take(set: &mut BTreeSet<DirtySlot>, dirty: DirtySlot)
    ensures fewer { IsTrue (is_among set.old.keys dirty) → btree_set_len set.new < btree_set_len set.old }
    ensures taken { (q : OneSlot) → is_among set.new.keys q ≡ (is_among set.old.keys q && not (dirty_same q dirty)) }
{
    let _ = set.remove(&dirty);
}
