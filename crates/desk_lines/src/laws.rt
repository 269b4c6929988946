// Laws of the lines of several parties: a line is of one party at most, and what is printed as final stays. Each function's
// contract is a law.
ghost use Rattle.desk_lines.specs.DeskLaws.{DeskFinalLinesStay};
ghost use Rattle.desk_lines.specs.PartyLines.{SaysByMark};

/// A line has no reply, or it begins with no party's mark, or it is a party's mark and what that party says.
#[tactic(auto, using(crate::proofs::SayingLaws::says_by_mark))]
pub fn a_line_is_of_one_party()
    ensures { SaysByMark }
{}

/// A value that a party is told as final is that of a complete result, and both stay so under every extension of the answers then
/// standing.
#[tactic(auto, using(crate::proofs::DeskFinalLaws::desk_final_lines_stay))]
pub fn what_is_printed_as_final_stays()
    ensures { DeskFinalLinesStay }
{}
