// Laws of the loop over the slots that wait: it does exactly what a change of the answers touches, and what it replaced can be
// put back. Each function's contract is a law.
ghost use Rattle.recalc.specs.BetweenAnswers.{AllIsDone, ChangesSpread, EditMarks, SpreadTouches};
ghost use Rattle.recalc.specs.BetweenAnswers.{StandingOnce, TouchedWeigh, UndonePasses};
ghost use Rattle.recalc.specs.Laws.{DoneAreTouched, DoneWeighAll, DoneWeighLess, LowerSettle};
ghost use Rattle.recalc.specs.Laws.{StartMarks, TurnMarks};
ghost use Rattle.recalc.specs.Readers.{MarksFeed};
ghost use Rattle.recalc.specs.Replacing.{EntryCanPutBack, EntryKeepsBefore};

/// From the slots that a change touches by itself, turn by turn, exactly the touched ones are done.
pub fn touched_slots_are_done()
    ensures start { StartMarks }
    ensures turn { TurnMarks }
    ensures settled { LowerSettle }
    ensures end { DoneAreTouched }
{}

/// What is done never weighs more than what is touched, and in the end it weighs the same.
pub fn done_slots_weigh_no_more()
    ensures less { DoneWeighLess }
    ensures all { DoneWeighAll }
{}

/// A change of answers spreads so, to the slots that it touches.
pub fn changes_of_answers_spread()
    ensures spread { ChangesSpread }
    ensures touches { SpreadTouches }
    ensures once { StandingOnce }
    ensures start { EditMarks }
{}

/// The loop can go from the results before a change to those after it.
pub fn changes_pass()
    ensures { UndonePasses }
{}

/// In the end what is done is what the change touches: so many slots, and the same sum of any measure of them.
pub fn a_change_of_answers_is_done()
    ensures done { AllIsDone }
    ensures weight { TouchedWeigh }
{}

/// With an entry for what a put replaced, the cells before are what they were, and can be put back.
pub fn entries_put_back()
    ensures before { EntryKeepsBefore }
    ensures can { EntryCanPutBack }
{}

/// The readers of a slot's fact let those slots wait that stand and that it feeds.
pub fn readers_let_fed_slots_wait()
    ensures { MarksFeed }
{}
