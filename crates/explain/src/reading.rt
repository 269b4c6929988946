// The slots that a slot reads, without those that these read.
ghost use Rattle.std.specs.Prelude.{◌≡◌, ◌<◌, All, IfOk, IsTrue};
ghost use Rattle.dictionary.specs.AcceptedParts.{accepted};
ghost use Rattle.dict_meaning.specs.Slots.{stands};
ghost use Rattle.explain.specs.Reads.{reads as reads_of};

use crate::found::Found;
use crate::slots::slot_reads;
use crate::walk::find_all;
use dictionary::FactEngine;
use fact_values::{NoMemory, Slot};
use graph_session::Session;
use std::alloc::Global;
use std::marker::Brand;
use std::sync::ledger::{Blank, Ledger};
use steps::Steps;

// The same, where the steps are counted for nobody.
fn reads_uncounted<E: FactEngine, L: Ledger>(
    alloc: Global,
    session: &Session<E>,
    slot: Slot,
    blank: Blank,
) -> Result<Vec<Slot>, NoMemory>
    requires name { blank.name ≡ L.name }
    requires parts { blank.parts ≡ L.parts }
    requires some { 0 < blank.parts }
    ensures { IfOk result (λ ts. ts.items ≡ reads_of (accepted session.now.dict) session.now.timeline.now slot) }
{
    let mut steps = Steps::<L>::new(blank);
    let all = slot_reads(alloc, session, slot, &mut steps)?;
    let mut found = Found::new(alloc);
    let mut first = Vec::new(alloc);
    find_all(session, all.as_slice(), &mut found, &mut first)?;
    Ok(first)
}

/// The slots that the evaluation of the slot reads, without those that these read in turn: of its expressions, by the results
/// of now, and the members that it reads behind a `*`. They are those that stand, each once, in the order in which it first
/// reads them. A writable slot reads none but by its placeholder, nor does an overridden one.
pub fn reads<E: FactEngine>(
    alloc: Global,
    session: &Session<E>,
    slot: Slot,
) -> Result<Vec<Slot>, NoMemory>
    ensures value { IfOk result (λ ts. ts.items ≡ reads_of (accepted session.now.dict) session.now.timeline.now slot) }
    ensures stand { IfOk result (λ ts. All (λ s. IsTrue (stands (accepted session.now.dict).tree
        session.now.timeline.now s)) ts.items) }
{
    reads_uncounted::<E, Brand>(alloc, session, slot, Blank::new(1))
}
