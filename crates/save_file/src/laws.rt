// Laws of saved and carried texts: which answers they give, and which lines are kept or dropped. Each function's contract is a
// law.
ghost use Rattle.save_file.specs.Carrying.{CarryingGivesOne, EachLineIsKeptOrListed, OwnLinesAreKept, SavedTextsAreCarried};
ghost use Rattle.save_file.specs.Loading.{SavedTextsTellAnswers};
ghost use Rattle.save_file.specs.SavedLines.{EachAnswerIsKeptOrListed, SavedTextsHaveALineEach};
ghost use Rattle.save_file.specs.Resuming.{CarryingGivesTheSame, LimitsAllowWhatStands, NoOverrideStands, SetSaysTheReason, DroppedWhereNotKept};

pub use saved_text::carried_texts_tell_their_lines;

/// Answers that fit an accepted dictionary and have one saved text are the same.
#[tactic(auto, using(crate::proofs::SameTexts::one_saved))]
pub fn saved_texts_tell_their_answers()
    ensures { SavedTextsTellAnswers }
{}

/// What a line of a carried text says is in the answers, or the line's number is listed, and never both.
pub fn each_line_is_kept_or_listed()
    ensures { EachLineIsKeptOrListed }
{}

/// Carrying gives one list of answers, and one list of numbers.
pub fn carrying_gives_one_result()
    ensures { CarryingGivesOne }
{}

/// The saved text of answers that fit an accepted dictionary is a carried text: each line has at most 4,096 bytes, and there are
/// at most 32 lists.
#[tactic(auto, using(crate::proofs::SameTexts::saved_carried))]
pub fn saved_texts_are_carried()
    ensures { SavedTextsAreCarried }
{}

/// It has one line for each list, answer and override, and no other.
#[tactic(auto, using(crate::proofs::SameTexts::a_line_each))]
pub fn saved_texts_have_a_line_each()
    ensures { SavedTextsHaveALineEach }
{}

/// Carried over any dictionary, each list, answer and override of it is in the answers, or the number of its line is listed.
#[tactic(auto, using(crate::proofs::SameTexts::all_kept_or_listed))]
pub fn each_answer_is_kept_or_listed()
    ensures { EachAnswerIsKeptOrListed }
{}

/// Where the saved text of answers is carried to their own dictionary, it drops nothing but answers that a limit or a check
/// refuses.
#[tactic(auto, using(crate::proofs::SameTexts::own_lines))]
pub fn own_lines_are_kept()
    ensures { OwnLinesAreKept }
{}

/// After a text that came from outside was resumed, no override stands.
pub fn no_override_is_resumed()
    ensures { NoOverrideStands }
{}

/// Each answer that stands then may be one of its fact's, and no limit and no check refuses it.
pub fn limits_allow_what_is_resumed()
    ensures { LimitsAllowWhatStands }
{}

/// Resuming lists the lines that carrying drops, and the overrides.
#[tactic(auto, using(crate::proofs::ResumeLaws::dropped_where_not))]
pub fn dropped_lines_are_listed()
    ensures { DroppedWhereNotKept }
{}

/// The reason that is listed with a value is what `set` refuses the value with in the resumed session.
pub fn set_says_the_reason()
    ensures { SetSaysTheReason }
{}

/// A text without overrides gives the same answers, be it resumed or carried.
pub fn carrying_gives_what_is_resumed()
    ensures { CarryingGivesTheSame }
{}
