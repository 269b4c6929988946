// Laws of the defined interview: it has one end at most, the engines agree, and the devices are called in a stated order. Each
// function's contract is a law.
ghost use Rattle.interview.specs.CallOrder.{EachLineIsOnePiece, NameThenSaved, NoCallBehindAFailedOne, NothingIsFetched, PullsFollowReplies};
ghost use Rattle.interview.specs.Engines.{EnginesAgree, LinesAgree, RunsAgree};
ghost use Rattle.interview_ends.specs.DefinedEnds.{OneEndOfCheck};
ghost use Rattle.interview.specs.Interview.{OneEndOfRun};
ghost use Rattle.interview_ends.specs.Load.{OneEndOfGen};
ghost use Rattle.interview_ends.specs.Save.{OneEndOfSave};
ghost use Rattle.script_runs.specs.Exchange.{PiecesFollowReplies};

use fg_io::{Shelf, Sink, Source};

/// A check of the bytes of a dictionary comes to one text and one status at most.
pub fn a_check_has_one_end()
    ensures { OneEndOfCheck }
{}

/// A run of the bytes of a dictionary and of a script, on the same terms, comes to one text and one status at most.
pub fn a_run_has_one_end()
    ensures { OneEndOfRun }
{}

/// Of a script none of whose lines is a `stamp` or a `touched`, `run` and `run-plain` have one text and one status.
#[tactic(auto, using(crate::proofs::EngineLaws::engines_agree))]
pub fn engines_agree()
    ensures { EnginesAgree }
{}

/// Behind whatever lines, one that is no `stamp` and no `touched` is answered the same by `run` and `run-plain`.
#[tactic(auto, using(crate::proofs::EngineLaws::lines_agree))]
pub fn lines_agree()
    ensures { LinesAgree }
{}

/// A `run` and a `run-plain` over the same dictionary, saved text and script, none of whose lines is a `stamp` or a `touched`,
/// have one status and wrote the same bytes, where neither ended by a fault from outside or for want of memory.
pub fn runs_agree()
    ensures { RunsAgree }
{}

/// A load of so many sums comes to one text at most.
pub fn a_gen_has_one_end()
    ensures { OneEndOfGen }
{}

/// A save over the bytes of a dictionary and of a script comes to one text and one status at most.
pub fn a_save_has_one_end()
    ensures { OneEndOfSave }
{}

/// In an exchange each piece of a script came behind the replies to all lines that ended before it, and none behind the
/// end or `quit`. `pulls_follow_replies` says so of each pull, also of one that failed.
pub fn pieces_follow_replies<S: Source<K>, K: Sink>()
    ensures { PiecesFollowReplies S.pulled K.output }
{}

/// In an exchange the reply to each line is put whole before more of the script is pulled, also where that pull fails,
/// but for lines that came in one piece with it. Nothing is pulled behind the end, or behind the piece in which `quit`
/// ended.
pub fn pulls_follow_replies<S: Source<K>, K: Sink>()
    ensures { PullsFollowReplies S.pulled K.output }
{}

/// Nothing is fetched but the dictionary's name, and behind it, where an accepted dictionary came of it, that of the
/// saved text; over a dictionary of the program's own the name of the saved text alone.
pub fn name_then_saved<H: Shelf<S, K>, S: Source<K>, K: Sink>()
    ensures { NameThenSaved H.fetched S.pulled K.output }
{}

/// For a dictionary of the program's own without a saved text, for `gen`, and for words without a form nothing is
/// fetched.
pub fn nothing_is_fetched<H: Shelf<S, K>, S: Source<K>, K: Sink>()
    ensures { NothingIsFetched H.fetched S.pulled K.output }
{}

/// Each line of output is put as one piece, with its newline, and nothing else is put. What a put left of a piece is
/// put next, and the first put that fails is the last.
pub fn each_line_is_one_piece<H: Shelf<S, K>, S: Source<K>, K: Sink>()
    ensures { EachLineIsOnePiece H.fetched S.pulled K.output }
{}

/// A device that failed isn't called again: of the calls of shelf, source and sink none stands behind one that failed,
/// and where a fetch failed nothing is pulled or put.
pub fn no_call_behind_a_failed_one<H: Shelf<S, K>, S: Source<K>, K: Sink>()
    ensures { NoCallBehindAFailedOne H.fetched S.pulled K.output }
{}
