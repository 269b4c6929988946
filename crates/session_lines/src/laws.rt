// Laws of the replies of a session: what is printed as final stays, and `undo` gives back the answers before a change. Each
// function's contract is a law.
ghost use Rattle.session_lines.specs.Laws.{FinalLinesStay, UndoRestores};

/// A value that is printed as final is that of a complete result, and both stay so under every extension of the answers then
/// standing.
#[tactic(auto, using(crate::proofs::FinalLineLaws::final_lines_stay))]
pub fn final_lines_stay()
    ensures { FinalLinesStay }
{}

/// `undo` behind a change that was accepted leads to the answers before it: members in their order, values, overrides and the
/// next number. What is watched stays.
#[tactic(auto, using(crate::proofs::UndoLaws::undo_restores))]
pub fn undo_restores()
    ensures { UndoRestores }
{}
