// Laws of every list of lines at a desk: the session is over the accepted ones, and an edit over another party's change is stale.
// Each function's contract is a law.
ghost use Rattle.shared_desk.specs.Parties.{AcceptedAreAnswered, EditsFindWhatWasSeen, OnePartyIsAlone, SessionIsOverAccepted};
ghost use Rattle.shared_desk.specs.StaleRule.{AnothersChangeIsStale, StaleIsAnothersChange};

/// The session of a desk is a session over the accepted commands in order, and gives each of them the same reply.
pub fn the_session_is_over_accepted_commands()
    ensures session_state { SessionIsOverAccepted }
    ensures replies { AcceptedAreAnswered }
{}

/// A party that is alone has the replies and refusals of a session: no line is refused for another's change.
pub fn a_party_alone_has_a_session()
    ensures { OnePartyIsAlone }
{}

/// An accepted edit that names a slot, other than `add`, finds the slot's entry and its result as they were when the party last
/// looked at it, or as they were at the start where it never looked.
pub fn edits_find_what_their_party_saw()
    ensures { EditsFindWhatWasSeen }
{}

/// An edit is refused as stale exactly where another party's change touched the slot after the party's last look at it, with the
/// number of the last such change.
pub fn an_edit_over_anothers_change_is_stale()
    ensures stale { StaleIsAnothersChange }
    ensures others { AnothersChangeIsStale }
{}
