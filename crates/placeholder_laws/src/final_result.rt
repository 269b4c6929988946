// Tells whether a slot's result is final.
ghost use Rattle.std.specs.Prelude.{◌≡◌, IsTrue, option_copied};
ghost use Rattle.dictionary.specs.AcceptedParts.{accepted};
ghost use Rattle.dict_meaning.specs.Final.{is_complete_in, is_final as is_final_in};
ghost use Rattle.dict_meaning.specs.Slots.{stands};
ghost use Rattle.placeholder_laws.specs.Stays.{Stays, is_complete};

use dictionary::FactEngine;
use fact_values::Slot;
use graph_session::Session;
use three_state::Res;

fn is_complete_result(res: &Res) -> bool
    ensures { result ≡ is_complete res.now }
{
    match res {
        Res::Complete(_) => true,
        Res::Placeholder(_) | Res::Incomplete | Res::Fault(_) => false,
    }
}

fn is_complete_slot(found: Option<&Res>) -> bool
    ensures { result ≡ is_complete_in (option_copied found.entry) }
{
    match found {
        None => false,
        Some(res) => is_complete_result(res),
    }
}

// Whether the result is complete, and is an override or the result of a steady fact.
fn keeps_to_the_rule<E: FactEngine>(session: &Session<E>, slot: Slot) -> bool
    requires { IsTrue (stands (accepted session.now.dict).tree session.now.timeline.now slot) }
    ensures { result ≡ is_final_in (accepted session.now.dict) session.now.timeline.now slot }
{
    if !is_complete_slot(session.result(slot)) {
        return false;
    }
    session.answers().override_of(slot).is_some() || session.dict().steady(slot.fact)
}

/// Whether no further answer can change the slot's result: it is complete, and it is an override, or no IsComplete stands in
/// the body of its fact nor in that of any fact that is reached from it. It has then the same value under every extension of
/// the answers: further answers of the right types and further open collections, with the overrides and the members of open
/// collections as they are. Where this says no, the result may still stay.
pub fn is_final<E: FactEngine>(session: &Session<E>, slot: Slot) -> bool
    requires { IsTrue (stands (accepted session.now.dict).tree session.now.timeline.now slot) }
    ensures value { result ≡ is_final_in (accepted session.now.dict) session.now.timeline.now slot }
    ensures stays { IsTrue result → Stays (accepted session.now.dict) session.now.timeline.now slot }
{
    let dict = session.dict();
    let _source = dict.source();
    keeps_to_the_rule(session, slot)
}
