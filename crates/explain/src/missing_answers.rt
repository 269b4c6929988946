// The missing answers of a slot.
ghost use Rattle.std.specs.Prelude.{◌≡◌, ◌<◌, IfOk, IsTrue};
ghost use Rattle.fact_values.specs.declared.slot.Slot.{Slot};
ghost use Rattle.dictionary.specs.AcceptedParts.{accepted};
ghost use Rattle.dict_meaning.specs.Slots.{stands};
ghost use Rattle.explain.specs.Found.{has};
ghost use Rattle.explain.specs.Missing.{Keeps, missing as missing_of};
ghost use Rattle.explain.specs.Reads.{is_read};

use crate::found::Found;
use crate::listing::list;
use crate::walk::find_reads;
use dictionary::FactEngine;
use fact_values::{NoMemory, Slot};
use graph_session::Session;
use std::alloc::Global;
use std::marker::Brand;
use std::sync::ledger::{Blank, Ledger};
use steps::Steps;

// What the evaluation of the slot reads, where the steps are counted for nobody.
fn all_reads<E: FactEngine, L: Ledger>(
    alloc: Global,
    session: &Session<E>,
    slot: Slot,
    blank: Blank,
) -> Result<Found, NoMemory>
    requires stands { IsTrue (stands (accepted session.now.dict).tree session.now.timeline.now slot) }
    requires name { blank.name ≡ L.name }
    requires parts { blank.parts ≡ L.parts }
    requires some { 0 < blank.parts }
    ensures { IfOk result (λ f. (t : Slot) → has f t ≡ is_read (accepted session.now.dict) session.now.timeline.now slot
        t) }
{
    let mut steps = Steps::<L>::new(blank);
    find_reads(alloc, session, slot, &mut steps)
}

/// The slots whose answers are missing for the slot's result: of those that its evaluation reads, by the results of then and
/// by way of other slots too, the writable ones that have no answer, or are collections that aren't open. They come by fact,
/// and of a fact in the order of the members. While all of them are unanswered, no other answer changes the result.
pub fn missing<E: FactEngine>(
    alloc: Global,
    session: &Session<E>,
    slot: Slot,
) -> Result<Vec<Slot>, NoMemory>
    requires { IsTrue (stands (accepted session.now.dict).tree session.now.timeline.now slot) }
    ensures value { IfOk result (λ ts. ts.items ≡ missing_of (accepted session.now.dict) session.now.timeline.now
        slot) }
    ensures keeps { IfOk result (λ ts. Keeps (accepted session.now.dict) session.now.timeline.now slot ts.items) }
{
    let dict = session.dict();
    let _accepted = dict.source();
    let found = all_reads::<E, Brand>(alloc, session, slot, Blank::new(1))?;
    list(alloc, session, &found)
}
