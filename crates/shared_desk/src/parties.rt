// Finds whose changes and entries are, and refuses a party a step over another's.
ghost use Rattle.std.specs.Prelude.{◌≡◌, ◌∷◌, [], ◌++◌, ◌<◌, None, suc, take, vec_capacity, vec_len, OnErr, OnOk, IfErr};
ghost use Rattle.graph_session.specs.declared.reply.Refusal.TheVariants.{NoMemory as WantOfMemory};
ghost use Rattle.shared_desk.specs.Desk.{changer, entrant as entrant_at, first_early, is_party, other as other_party, stale_since as stale};
ghost use Rattle.shared_desk.specs.declared.refusal.DeskRefusal.TheVariants.{Session};

use crate::refusal::DeskRefusal;
use graph_session::Refusal;

// Whether the change of this number is the party's.
fn is_by(changers: &[u32], number: u64, party: u32) -> bool
    ensures { result ≡ is_party party (changer changers.now number) }
{
    match changers.get(number.saturating_sub(1) as usize) {
        None => false,
        Some(changer) => *changer == party,
    }
}

/// The last change, unless it came no later than the party's look, or is the party's own.
pub fn stale_since(changers: &[u32], party: u32, look: u64, last: u64) -> Option<u64>
    ensures { result ≡ stale party look last (changer changers.now last) }
{
    if last <= look {
        return None;
    }
    if is_by(changers, last, party) {
        return None;
    }
    Some(last)
}

/// The party of the entry at the place, from 0: none of the first.
pub fn entrant(entries: &[u32], place: usize) -> Option<u32>
    ensures { result ≡ entrant_at entries.now place }
{
    if place == 0 {
        return None;
    }
    entries.get(place - 1).copied()
}

/// The party of the entry behind the place.
pub fn next_entrant(entries: &[u32], place: usize) -> Option<u32>
    ensures { result ≡ entrant_at entries.now (suc place) }
{
    entries.get(place).copied()
}

// Another party than this one.
fn other(party: u32, entrant: Option<u32>) -> Option<u32>
    ensures { result ≡ other_party party entrant }
{
    match entrant {
        None => None,
        Some(entrant) => {
            if entrant == party {
                None
            } else {
                Some(entrant)
            }
        }
    }
}

/// Refuses a party where the entry that it would leave, or go to, is another's.
pub fn judge_owner(party: u32, entrant: Option<u32>) -> Option<DeskRefusal>
    ensures { result ≡ first_early [] None (other_party party entrant) }
{
    match other(party, entrant) {
        None => None,
        Some(owner) => Some(DeskRefusal::NotYours(owner)),
    }
}

/// Takes the memory for one more.
pub fn make_room(parties: &mut Vec<u32>) -> Result<(), DeskRefusal>
    ensures parties { parties.new.items ≡ parties.old.items }
    ensures room { OnOk result (vec_len parties.new < vec_capacity parties.new) }
    ensures memory { IfErr result (λ r. r ≡ Session WantOfMemory) }
{
    match parties.reserve(1) {
        Ok(()) => Ok(()),
        Err(_) => Err(DeskRefusal::Session(Refusal::NoMemory)),
    }
}

/// Adds a party, for which there is room.
pub fn sign(parties: &mut Vec<u32>, party: u32)
    requires { vec_len parties.old < vec_capacity parties.old }
    ensures { parties.new.items ≡ parties.old.items ++ party ∷ [] }
{
    let _ = parties.push(party);
}

/// Adds a party, for which there is room, in the stead of those from the place on.
pub fn sign_at(parties: &mut Vec<u32>, place: usize, party: u32)
    requires { vec_len parties.old < vec_capacity parties.old }
    ensures { parties.new.items ≡ take place parties.old.items ++ party ∷ [] }
{
    parties.truncate(place);
    sign(parties, party);
}
