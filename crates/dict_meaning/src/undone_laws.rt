// Laws of the change that undoes another: it tells what the other did. Each function's contract is a law.
ghost use Rattle.dict_meaning.specs.Undone.{CameTells, DiffersTells, ExtendedTells, FirstTells, WentTells};

/// Which slots came with a change, which went with it, and of which the answer, the override or the list differs.
pub fn undoing_tells_what_differs()
    ensures came { CameTells }
    ensures went { WentTells }
    ensures differs { DiffersTells }
{}

/// Which slots a change touches by itself: those that came, and those of which something differs.
pub fn undoing_tells_what_is_touched_first()
    ensures { FirstTells }
{}

/// Whether the answers after a change extend those before.
pub fn undoing_tells_extensions()
    ensures { ExtendedTells }
{}
