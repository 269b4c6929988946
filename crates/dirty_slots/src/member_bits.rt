// The members of facts that wait, as a bit for each in a row of its fact.
ghost use Rattle.std.specs.Prelude.{◌≡◌, ◌<◌, ◌^◌, ◌&&◌, ◌||◌, ℕ, false, not, nat_eq, Some, slice_get, IfNone, IfOk, IfSome, IsTrue, OnErr, OnOk};
ghost use Rattle.dirty_slots.specs.MemberBits.{has_in, in_row, is_of_rank};
ghost use Rattle.dirty_slots.specs.PlaceBits.{has_place};
ghost use Rattle.dirty_slots.specs.Slots.{dirty_same};
ghost use Rattle.dirty_slots.specs.declared.dirty_slot.DirtySlot.{DirtySlot as OneSlot};

use crate::dirty_slot::DirtySlot;
use crate::place_bits::PlaceBits;
use fact_values::NoMemory;
use std::alloc::Global;

/// Members below this number wait in rows: so a row has at most 128 words, and a search in an empty one stays short.
const MEMBERS_IN_ROW: u32 = 8_192;

/// The members of a fact that wait, and its rank.
#[derive(Drop)]
pub struct MemberBits {
    rank: u32,
    members: PlaceBits,
}

impl MemberBits {
    pub fn new(alloc: Global) -> MemberBits
        ensures { (q : OneSlot) → in_row (Some result) q ≡ false }
    {
        MemberBits {
            rank: 0,
            members: PlaceBits::empty(alloc),
        }
    }

    // Whether it is of this rank. One in which no member has a bit becomes so.
    fn is_of(&mut self, rank: u32) -> bool
        ensures rank { IsTrue result → self.new.rank ≡ rank }
        ensures same { (q : OneSlot) → in_row (Some self.new) q ≡ in_row (Some self.old) q }
    {
        if !self.members.has_bit(0) {
            self.rank = rank;
        }
        self.rank == rank
    }

    // The first member that waits.
    fn first(&mut self) -> Option<u32>
        ensures none { IfNone result ((q : OneSlot) → in_row (Some self.old) q ≡ false) }
        ensures some { IfSome result (λ m. (m < 2 ^ 32) × IsTrue (has_place self.old.members m)) }
        ensures unchanged { self.new ≡ self.old }
    {
        let place = self.members.first();
        if place <= u32::MAX as usize && self.members.has_bit(place) {
            Some(place as u32)
        } else {
            None
        }
    }

    fn put(&mut self, member: u32) -> Result<(), NoMemory>
        ensures rank { self.new.rank ≡ self.old.rank }
        ensures ok { OnOk result ((i : ℕ) → has_place self.new.members i
            ≡ (nat_eq i member || has_place self.old.members i)) }
        ensures err { OnErr result ((i : ℕ) → has_place self.new.members i ≡ has_place self.old.members i) }
    {
        self.members.reach(member as usize)?;
        self.members.insert(member as usize);
        Ok(())
    }

    fn remove(&mut self, member: u32)
        ensures rank { self.new.rank ≡ self.old.rank }
        ensures members { (i : ℕ) → has_place self.new.members i
            ≡ (has_place self.old.members i && not (nat_eq i member)) }
    {
        if self.members.has_bit(member as usize) {
            self.members.remove(member as usize);
        }
    }

    fn clear(&mut self)
        ensures { (q : OneSlot) → in_row (Some self.new) q ≡ false }
    {
        self.members.clear();
    }
}

// So many rows, in which nothing waits.
#[tactic(auto, using(crate::proofs::MemberBitLaws::pushed))]
pub fn new_rows(alloc: Global, count: usize) -> Result<Vec<MemberBits>, NoMemory>
    ensures { IfOk result (λ rows. (q : OneSlot) → has_in rows.items q ≡ false) }
{
    let mut rows = Vec::with_capacity(alloc, count)?;
    for _ in 0..count {
        rows.push(MemberBits::new(alloc))?;
    }
    Ok(rows)
}

// Whether this slot waits in the row of its fact: the row is of its rank, as one becomes that had no member.
#[inline(always)]
pub fn is_of(rows: &mut [MemberBits], slot: DirtySlot) -> bool
    ensures rank { IsTrue result → IsTrue (is_of_rank (slice_get rows.new slot.fact) slot) }
    ensures same { (q : OneSlot) → has_in rows.new q ≡ has_in rows.old q }
{
    let at = slot.fact as usize;
    slot.member < MEMBERS_IN_ROW && at < rows.len() && rows[at].is_of(slot.rank)
}

// The first slot of this fact and rank that waits.
#[inline(always)]
pub fn first_of(rows: &mut [MemberBits], head: DirtySlot) -> Option<DirtySlot>
    ensures none { IfNone result ((q : OneSlot) → q.rank ≡ head.rank → q.fact ≡ head.fact
        → has_in rows.old q ≡ false) }
    ensures some { IfSome result (λ slot. IsTrue (has_in rows.old slot)) }
    ensures of { IfSome result (λ slot. (slot.rank ≡ head.rank) × (slot.fact ≡ head.fact)) }
    ensures unchanged { rows.new ≡ rows.old }
{
    let at = head.fact as usize;
    if at < rows.len() && rows[at].rank == head.rank {
        let member = rows[at].first()?;
        Some(DirtySlot {
            rank: head.rank,
            fact: head.fact,
            member,
        })
    } else {
        None
    }
}

// Lets a slot wait in the row of its fact.
#[inline(always)]
pub fn put(rows: &mut [MemberBits], slot: DirtySlot) -> Result<(), NoMemory>
    requires { IsTrue (is_of_rank (slice_get rows.old slot.fact) slot) }
    ensures ok { OnOk result ((q : OneSlot) → has_in rows.new q ≡ (dirty_same q slot || has_in rows.old q)) }
    ensures err { OnErr result ((q : OneSlot) → has_in rows.new q ≡ has_in rows.old q) }
{
    rows[slot.fact as usize].put(slot.member)?;
    Ok(())
}

// Whether the row of this slot's fact is of its rank.
#[inline(always)]
fn is_ranked(rows: &[MemberBits], slot: DirtySlot) -> bool
    ensures { result ≡ is_of_rank (slice_get rows.now slot.fact) slot }
{
    match rows.get(slot.fact as usize) {
        Some(row) => row.rank == slot.rank,
        None => false,
    }
}

// Takes this slot out, if it waits.
#[inline(always)]
pub fn remove(rows: &mut [MemberBits], slot: DirtySlot)
    ensures { (q : OneSlot) → has_in rows.new q ≡ (has_in rows.old q && not (dirty_same q slot)) }
{
    if is_ranked(rows, slot) {
        rows[slot.fact as usize].remove(slot.member);
    }
}

// Nothing waits any more.
#[tactic(auto, using(crate::proofs::MemberBitLaws::cleared, crate::proofs::MemberBitLaws::all_cleared))]
pub fn clear(rows: &mut [MemberBits])
    ensures { (q : OneSlot) → has_in rows.new q ≡ false }
{
    let mut at = 0;
    while at < rows.len() {
        rows[at].clear();
        at += 1;
    }
}
