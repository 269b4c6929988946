// Laws of every history: undo gives back the answers before, and redo those after. Each function's contract is a law.
ghost use Rattle.session_undo.specs.Laws.{UndoneIsBefore, UndoneKeepsEarlier, RedoneIsAfter, BackIsOverAnswers, ForthIsOverAnswers, ChangeIsOverAnswers, ForgettingIsOverAnswers, BackKeeps, ForthKeeps, ChangeKeeps, ForgettingKeeps};

/// Undoing as many changes as were just made gives the answers before them, and leaves the earlier
/// changes as they were; redoing these gives the answers after them.
pub fn undo_gives_back()
    ensures answers { UndoneIsBefore }
    ensures earlier { UndoneKeepsEarlier }
    ensures redo { RedoneIsAfter }
{}

/// Seen as whole answers before and after a place, a step back or forth moves the place by one, and
/// a change cuts what lies after it. Changes that are forgotten take the farthest answers before it.
pub fn edits_lead_to_whole_answers()
    ensures back { BackIsOverAnswers }
    ensures forth { ForthIsOverAnswers }
    ensures change { ChangeIsOverAnswers }
    ensures forgetting { ForgettingIsOverAnswers }
{}

/// Edits that fit one after another, back and forth, go on to do so after each step and change, and where some are forgotten.
pub fn edits_go_on_to_fit()
    ensures back { BackKeeps }
    ensures forth { ForthKeeps }
    ensures change { ChangeKeeps }
    ensures forgetting { ForgettingKeeps }
{}
