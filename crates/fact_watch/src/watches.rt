// The watches of a session, and what each noted.
ghost use Rattle.std.specs.Prelude.{◌≡◌, ◌↔◌, ◌<◌, ◌≤◌, ◌^◌, ◌∷◌, [], ◌++◌, Bool, false, ℕ, List, OnOk, OnErr, IfOk, IfSome, IsErrOf, IsTrue, None, length, slice_get, unwrap_or};
ghost use Rattle.std.specs.Bool.{OnFalse, OnTrue};
ghost use Rattle.std.specs.Option.{option_copied};
ghost use Rattle.dictionary.specs.AcceptedParts.{accepted};
ghost use Rattle.dict_meaning.specs.Plain.{plain};
ghost use Rattle.evaluation.specs.Results.{Results};
ghost use Rattle.fact_watch.specs.Says.{slot_says};
ghost use Rattle.fact_watch.specs.Watching.{code_at, fires_between, fires_now, is_full, is_put, nothing_watched, noted, unnoted, watch_same, without};

use crate::relation::WatchTable;
use dictionary::FactEngine;
use fact_values::{NoMemory, Slot};
use graph_session::Session;
use std::alloc::Global;
use std::marker::Model;
use three_state::Res;

/// The most watches.
const MOST_WATCHES: usize = 1000;

/// Why a watch wasn't put.
#[derive(Clone, Copy, Debug, PartialEq, Eq)]
pub enum PutFault {
    /// The watch is there.
    Same,
    /// There are 1,000.
    Full,
    NoMemory,
}

/// Watches, each by the place of a relation in its table, and of a slot, in the order in which they were put; and the
/// results that their slots had when they were noted.
#[derive(Drop)]
pub struct Watches {
    alloc: Global,
    watched: Vec<(u32, Slot)>,
    notes: Vec<Option<Res>>,
}

impl Model for Watches {
    ghost use Rattle.std.specs.Prelude.{◌≤◌, length};
    ghost use Rattle.fact_watch.specs.Watching.{Watching, coded_watching};

    ghost Value = { Watching };

    ghost coded = { coded_watching };

    ghost view = { λ w. record { watched = w.watched.items; notes = w.notes.items } };

    ghost invariant = { λ w. length w.watched.items ≤ 1000 };
}

fn is_watch(watch: &(u32, Slot), place: u32, slot: Slot) -> bool
    ensures { result ≡ watch_same (place, slot) watch.now }
{
    place == watch.0 && slot.fact == watch.1.fact && slot.member == watch.1.member
}

// Leaves the watches that aren't this one.
fn take_out(watched: &mut Vec<(u32, Slot)>, place: u32, slot: Slot)
    ensures left { watched.new.items ≡ without (place, slot) watched.old.items }
    ensures fewer { length watched.new.items ≤ length watched.old.items }
{
    watched.retain(|watch| !is_watch(watch, place, slot));
}

// The slot's result, or none where it doesn't stand.
fn note_of<E: FactEngine>(
    alloc: Global,
    session: &Session<E>,
    slot: Slot,
) -> Result<Option<Res>, NoMemory>
    ensures { IfOk result (λ note. note ≡ plain (accepted session.now.dict) session.now.timeline.now slot) }
{
    match session.result(slot) {
        None => Ok(None),
        Some(res) => Ok(Some(res.copy(alloc)?)),
    }
}

fn push_note<E: FactEngine>(
    alloc: Global,
    session: &Session<E>,
    slot: Slot,
    notes: &mut Vec<Option<Res>>,
) -> Result<(), NoMemory>
    ensures { OnOk result (notes.new.items ≡ notes.old.items ++ plain (accepted session.now.dict)
        session.now.timeline.now slot ∷ []) }
{
    let note = note_of(alloc, session, slot)?;
    notes.push(note)?;
    Ok(())
}

// What the relation at the place says of a slot: no where it didn't stand or doesn't.
#[tactic(auto, using(crate::proofs::FiringLaws::said_at))]
fn says(table: &WatchTable, place: u32, old: Option<&Res>, new: Option<&Res>) -> bool
    requires { place < length table.now.relations.items }
    ensures { result ≡ slot_says (code_at (λ r. r.code) table.now.relations.items place) (option_copied old.entry)
        (option_copied new.entry) }
{
    match old {
        None => false,
        Some(old) => match new {
            None => false,
            Some(new) => table.run(place, old, new),
        },
    }
}

impl Watches {
    /// Nothing is watched.
    pub fn new(alloc: Global) -> Watches
        ensures { result ≡ nothing_watched }
    {
        Watches {
            alloc,
            watched: Vec::new(alloc),
            notes: Vec::new(alloc),
        }
    }

    /// How many watches there are: 1,000 at most.
    pub fn len(&self) -> u32
        ensures count { result ≡ length self.now.watched }
        ensures few { result ≤ 1000 }
    {
        self.watched.len() as u32
    }

    /// The place and the slot of the watch at n, from 0, or `None` where there is none.
    pub fn at(&self, n: u32) -> Option<(u32, Slot)>
        ensures { result ≡ slice_get self.now.watched n }
    {
        self.watched.get(n as usize).copied()
    }

    fn has(&self, place: u32, slot: Slot) -> bool
        ensures { result ≡ is_put self.now.watched (place, slot) }
    {
        self.watched
            .iter()
            .any(|watch| is_watch(watch, place, slot))
    }

    /// Puts a watch behind the others. Nothing is noted then.
    pub fn put(&mut self, place: u32, slot: Slot) -> Result<(), PutFault>
        ensures put { OnOk result (self.new ≡ unnoted (self.old.watched ++ (place, slot) ∷ [])) }
        ensures same { IsErrOf result PutFault.Same ↔ IsTrue (is_put self.old.watched (place, slot)) }
        ensures full { IsErrOf result PutFault.Full ↔ ((is_put self.old.watched (place, slot) ≡ false)
            × IsTrue (is_full self.old.watched)) }
        ensures unchanged { OnErr result (self.new ≡ self.old) }
    {
        if self.has(place, slot) {
            return Err(PutFault::Same);
        }
        if self.watched.len() >= MOST_WATCHES {
            return Err(PutFault::Full);
        }
        match self.watched.push((place, slot)) {
            Ok(()) => {
                self.notes.clear();
                Ok(())
            }
            Err(_) => Err(PutFault::NoMemory),
        }
    }

    /// Takes a watch out, and tells whether it was there. Nothing is noted then.
    pub fn cut(&mut self, place: u32, slot: Slot) -> bool
        ensures there { result ≡ is_put self.old.watched (place, slot) }
        ensures cut { OnTrue result (self.new ≡ unnoted (without (place, slot) self.old.watched)) }
        ensures unchanged { OnFalse result (self.new ≡ self.old) }
    {
        if !self.has(place, slot) {
            return false;
        }
        take_out(&mut self.watched, place, slot);
        self.notes.clear();
        true
    }

    /// Notes the result of each watched slot, or that it doesn't stand. For want of memory all notes are as before.
    pub fn note<E: FactEngine>(&mut self, session: &Session<E>) -> Result<(), NoMemory>
        ensures noted { OnOk result (self.new ≡ noted self.old.watched
            (plain (accepted session.now.dict) session.now.timeline.now)) }
        ensures unchanged { OnErr result (self.new ≡ self.old) }
    {
        let mut notes = Vec::new(self.alloc);
        for (_, slot) in &self.watched {
            match push_note(self.alloc, session, *slot, &mut notes) {
                Ok(()) => (),
                Err(NoMemory) => {
                    drop(notes);
                    return Err(NoMemory);
                }
            }
        }
        self.notes = notes;
        Ok(())
    }

    // What was noted of the watch at n: none where its slot didn't stand, or nothing is noted.
    fn note_at(&self, n: u32) -> Option<&Res>
        ensures { option_copied result ≡ unwrap_or (slice_get self.now.notes n) None }
    {
        match self.notes.get(n as usize) {
            None => None,
            Some(note) => note.as_ref(),
        }
    }

    // Whether the watch at n fires, of what was noted and the result now.
    fn fires_as_noted<E: FactEngine>(
        &self,
        table: &WatchTable,
        session: &Session<E>,
        n: u32,
    ) -> bool
        requires { IfSome (slice_get self.now.watched n) (λ p. p.0 < length table.now.relations.items) }
        ensures { result ≡ fires_now (code_at (λ r. r.code) table.now.relations.items) self.now
            (plain (accepted session.now.dict) session.now.timeline.now) n }
    {
        match self.at(n) {
            None => false,
            Some(watch) => says(table, watch.0, self.note_at(n), session.result(watch.1)),
        }
    }

    /// Whether the watch at n fires: its slot stood when it was noted, and stands now, and its relation says yes of the
    /// result that was noted and the one now. It takes no memory.
    pub fn fires<E: FactEngine>(&self, table: &WatchTable, session: &Session<E>, n: u32) -> bool
        requires { IfSome (slice_get self.now.watched n) (λ p. p.0 < length table.now.relations.items) }
        ensures now { result ≡ fires_now (code_at (λ r. r.code) table.now.relations.items) self.now
            (plain (accepted session.now.dict) session.now.timeline.now) n }
        ensures since { (before : Results) → self.now ≡ noted self.now.watched before
            → result ≡ fires_between (code_at (λ r. r.code) table.now.relations.items) self.now.watched before
            (plain (accepted session.now.dict) session.now.timeline.now) n }
    {
        self.fires_as_noted(table, session, n)
    }
}
