// Which slots wait once the result of a slot has moved.
ghost use Rattle.std.specs.Prelude.{◌≡◌, ◌||◌, ◌&&◌, All, IsTrue, OnOk, is_some, option_copied};
ghost use Rattle.std.specs.List.{list_any};
ghost use Rattle.answers.specs.Answered.{value_of};
ghost use Rattle.answers.specs.Meaning.{answered};
ghost use Rattle.answers.specs.declared.edit.Side.TheVariants.{Override};
ghost use Rattle.dep_index.specs.Readers.{readers_of};
ghost use Rattle.dict_source.specs.Finding.{IsNumber};
ghost use Rattle.dictionary.specs.AcceptedParts.{accepted};
ghost use Rattle.dict_meaning.specs.Final.{is_complete_in};
ghost use Rattle.dict_meaning.specs.Slots.{stands};
ghost use Rattle.dict_meaning.specs.Steady.{steady};
ghost use Rattle.recalc.specs.EngineInvariant.{IsGraphOf};
ghost use Rattle.recalc.specs.Propagations.{setting_of};
ghost use Rattle.recalc.specs.Transitions.{is_shielded};
ghost use Rattle.recalc.specs.Readers.{marks_at, reads_at};
ghost use Rattle.recalc.specs.Running.{let_by, let_by_all, live_results, shielded_in};
ghost use Rattle.dirty_slots.specs.Waiting.{waits};
ghost use Rattle.dirty_slots.specs.declared.dirty_slot.DirtySlot.{DirtySlot};

use crate::dependency_graph::DependencyGraph;
use crate::live_cells::LiveCells;
use crate::propagation::Propagation;
use cell_store::Store;
use dep_index::ReaderOf;
use dirty_slots::{DirtyQueue, DirtySlot};
use fact_values::{NoMemory, Slot};
use node_eval::Cells;
use three_state::Res;

/// Lets those slots wait that the readers of the slot's fact have now, at the members where they read the slot, but
/// for those whose results no further answer can change.
pub fn mark(
    graph: &DependencyGraph,
    queue: &mut DirtyQueue,
    propagation: &Propagation,
    store: &Store,
    slot: Slot,
) -> Result<(), NoMemory>
    requires graph { IsGraphOf (accepted propagation.now.dict.now) graph.now }
    requires places { queue.old.places ≡ graph.now.places.value }
    requires stands { IsTrue (stands (accepted propagation.now.dict.now).tree (answered propagation.now.answers.now)
        slot) }
    ensures marked { OnOk result ((q : DirtySlot) → waits queue.new q ≡ (waits queue.old q
        || let_by_all (setting_of propagation.now) store.now.cells slot (readers_of graph.now.readers slot.fact) q)) }
    ensures places { queue.new.places ≡ queue.old.places }
{
    if propagation.extended {
        let readers = graph.readers.readers(slot.fact);
        return mark_all(queue, propagation, store, slot, readers);
    }
    let readers = &graph.placed[slot.fact as usize];
    queue.add_places(&readers.places);
    mark_all(queue, propagation, store, slot, &readers.others)
}

// Those of these readers.
fn mark_all(
    queue: &mut DirtyQueue,
    propagation: &Propagation,
    store: &Store,
    slot: Slot,
    readers: &[ReaderOf],
) -> Result<(), NoMemory>
    requires { All (λ r. IsNumber (accepted propagation.now.dict.now).tree.facts r.fact) readers.now }
    ensures marked { OnOk result ((q : DirtySlot) → waits queue.new q
        ≡ (waits queue.old q || let_by_all (setting_of propagation.now) store.now.cells slot readers.now q)) }
    ensures places { queue.new.places ≡ queue.old.places }
{
    for reader in readers {
        mark_reader(queue, propagation, store, slot, *reader)?;
    }
    Ok(())
}

#[inline(always)]
fn mark_reader(
    queue: &mut DirtyQueue,
    propagation: &Propagation,
    store: &Store,
    slot: Slot,
    reader: ReaderOf,
) -> Result<(), NoMemory>
    requires { IsNumber (accepted propagation.now.dict.now).tree.facts reader.fact }
    ensures marked { OnOk result ((q : DirtySlot) → waits queue.new q
        ≡ (waits queue.old q || let_by (setting_of propagation.now) store.now.cells slot q reader)) }
    ensures places { queue.new.places ≡ queue.old.places }
{
    let rank = propagation.dict.rank(reader.fact);
    let home = propagation.dict.home(reader.fact);
    if home == 0 {
        return mark_member(queue, propagation, store, slot, reader, rank, 0);
    }
    match propagation.answers.members(home) {
        Some(members) => mark_members(queue, propagation, store, slot, reader, rank, members),
        None => mark_members(queue, propagation, store, slot, reader, rank, &[]),
    }
}

#[inline(never)]
fn mark_members(
    queue: &mut DirtyQueue,
    propagation: &Propagation,
    store: &Store,
    slot: Slot,
    reader: ReaderOf,
    rank: u32,
    members: &[u32],
) -> Result<(), NoMemory>
    requires { IsNumber (accepted propagation.now.dict.now).tree.facts reader.fact }
    ensures marked { OnOk result ((q : DirtySlot) → waits queue.new q
        ≡ (waits queue.old q || list_any (marks_at (shielded_in (setting_of propagation.now) store.now.cells) slot
        reader rank q) members.now)) }
    ensures places { queue.new.places ≡ queue.old.places }
{
    for member in members {
        mark_member(queue, propagation, store, slot, reader, rank, *member)?;
    }
    Ok(())
}

#[inline(always)]
fn mark_member(
    queue: &mut DirtyQueue,
    propagation: &Propagation,
    store: &Store,
    slot: Slot,
    reader: ReaderOf,
    rank: u32,
    member: u32,
) -> Result<(), NoMemory>
    requires { IsNumber (accepted propagation.now.dict.now).tree.facts reader.fact }
    ensures marked { OnOk result ((q : DirtySlot) → waits queue.new q
        ≡ (waits queue.old q || marks_at (shielded_in (setting_of propagation.now) store.now.cells) slot reader rank q
        member)) }
    ensures places { queue.new.places ≡ queue.old.places }
{
    let fact = reader.fact;
    if reads(slot, reader, member) && !is_shielded(propagation, store, Slot { fact, member }) {
        queue.add(DirtySlot { rank, fact, member })
    } else {
        Ok(())
    }
}

fn reads(slot: Slot, reader: ReaderOf, member: u32) -> bool
    ensures { result ≡ reads_at slot reader member }
{
    !reader.same || slot.member == member
}

// No change that extends the answers moves the slot.
fn is_shielded(propagation: &Propagation, store: &Store, slot: Slot) -> bool
    requires { IsNumber (accepted propagation.now.dict.now).tree.facts slot.fact }
    ensures { result ≡ shielded_in (setting_of propagation.now) store.now.cells slot }
{
    propagation.extended && is_final(propagation, store, slot)
}

// It is complete, and either overridden or steady. It stands apart, since most changes extend no answers.
#[inline(never)]
fn is_final(propagation: &Propagation, store: &Store, slot: Slot) -> bool
    requires { IsNumber (accepted propagation.now.dict.now).tree.facts slot.fact }
    ensures { result ≡ (is_complete_in (live_results propagation.now.gone store.now.cells slot)
        && (is_some (value_of Override (answered propagation.now.answers.now) slot) || steady (accepted propagation.now.dict.now) slot.fact)) }
{
    let live_results = LiveCells {
        store,
        gone: propagation.gone,
    };
    is_complete(live_results.cell(slot))
        && (propagation.answers.override_of(slot).is_some() || propagation.dict.steady(slot.fact))
}

fn is_complete(res: Option<&Res>) -> bool
    ensures { result ≡ is_complete_in (option_copied res.entry) }
{
    match res {
        None => false,
        Some(Res::Complete(_)) => true,
        Some(Res::Placeholder(_)) => false,
        Some(Res::Incomplete) => false,
        Some(Res::Fault(_)) => false,
    }
}
