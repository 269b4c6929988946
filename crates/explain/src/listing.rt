// Lists the slots that a walk found and that are unanswered, in the order of those that stand.
ghost use Rattle.std.specs.Prelude.{◌≡◌, ◌++◌, ◌∷◌, [], IfOk, OnOk, filter, map};
ghost use Rattle.dict_source.specs.Finding.{IsNumber};
ghost use Rattle.evaluation.specs.Results.{slot as slot_at};
ghost use Rattle.dict_meaning.specs.Slots.{slots_of, standing};
ghost use Rattle.explain.specs.SessionContext.{tree_of};
ghost use Rattle.explain.specs.Listing.{is_listed as listed};

use crate::found::{Found, push_if};
use crate::slots::is_unanswered;
use dictionary::{FactEngine, members_of_home};
use fact_values::{NoMemory, Slot};
use graph_session::Session;
use std::alloc::Global;

fn is_listed<E: FactEngine>(session: &Session<E>, found: &Found, slot: Slot) -> bool
    ensures { result ≡ listed session.now found.now slot }
{
    found.has(slot) && is_unanswered(session, slot)
}

// Takes the slot, where it was found and is unanswered.
fn take_one<E: FactEngine>(
    session: &Session<E>,
    found: &Found,
    slot: Slot,
    taken: &mut Vec<Slot>,
) -> Result<(), NoMemory>
    ensures { OnOk result (taken.new.items ≡ taken.old.items ++ filter (listed session.now found.now) (slot ∷ [])) }
{
    let wanted = is_listed(session, found, slot);
    push_if(taken, wanted, slot)?;
    Ok(())
}

// Those of the fact's slots at these members.
fn take_members<E: FactEngine>(
    session: &Session<E>,
    found: &Found,
    fact: u32,
    members: &[u32],
    taken: &mut Vec<Slot>,
) -> Result<(), NoMemory>
    ensures { OnOk result (taken.new.items ≡ taken.old.items ++ filter (listed session.now found.now)
        (map (slot_at fact) members.now)) }
{
    for member in members {
        let slot = Slot {
            fact,
            member: *member,
        };
        take_one(session, found, slot, taken)?;
    }
    Ok(())
}

// Those of the fact's slots that stand.
fn take_fact<E: FactEngine>(
    session: &Session<E>,
    found: &Found,
    fact: u32,
    taken: &mut Vec<Slot>,
) -> Result<(), NoMemory>
    requires { IsNumber (tree_of session.now).facts fact }
    ensures { OnOk result (taken.new.items ≡ taken.old.items ++ filter (listed session.now found.now)
        (slots_of (tree_of session.now) session.now.timeline.now fact)) }
{
    let home = session.dict().home(fact);
    let members = members_of_home(session.answers(), home);
    take_members(session, found, fact, members, taken)
}

/// Those that were found and are unanswered, by fact, and of a fact in the order of the members.
pub fn list<E: FactEngine>(
    alloc: Global,
    session: &Session<E>,
    found: &Found,
) -> Result<Vec<Slot>, NoMemory>
    ensures { IfOk result (λ ts. ts.items ≡ filter (listed session.now found.now)
        (standing (tree_of session.now) session.now.timeline.now)) }
{
    let mut taken = Vec::new(alloc);
    for before in 0..session.dict().fact_count() {
        take_fact(session, found, before + 1, &mut taken)?;
    }
    Ok(taken)
}
