// Laws of the slots that stand: they are those of the list. Each function's contract is a law.
ghost use Rattle.dict_meaning.specs.Slots.{ListedStand};

/// The list of slots has exactly those that stand.
pub fn listed_slots_stand()
    ensures { ListedStand }
{}
