// Laws of the commands of a session: the steps that they take, and the results and stamps that they leave. Each function's
// contract is a law.
ghost use Rattle.std.specs.Prelude.{◌≡◌, false, IsTrue, Ok, Err};
ghost use Rattle.dictionary.specs.AcceptedParts.{accepted};
ghost use Rattle.dict_meaning.specs.Weights.{touched_weight};
ghost use Rattle.graph_session.specs.Rules.{rules};
ghost use Rattle.graph_session.specs.SessionView.{SessionState, session_state};
ghost use Rattle.graph_session.specs.Step.{is_change, most_steps, step};
ghost use Rattle.graph_session.specs.declared.reply.Refusal.{Refusal};
ghost use Rattle.graph_session.specs.declared.reply.Reply.{Reply as OneReply};
ghost use Rattle.session_steps.specs.Sessions.{ChangesTakeTouched, QuestionsChangeNone, QuestionsTakeNone, RefusedTakeNone};
ghost use Rattle.session_steps.specs.Sessions.{TouchedHaveNumber, UntouchedKeepAll};

use dictionary::FactEngine;
use graph_session::Session;
use recalc::Recalc;
use script_lines::Command;

/// Where an engine takes at most what the touched slots weigh, an accepted change of a session takes
/// at most that, and every other command, and one that is refused, takes none.
pub fn commands_take_what_they_touch()
    ensures change { ChangesTakeTouched }
    ensures refused { RefusedTakeNone }
    ensures question { QuestionsTakeNone }
{}

/// What a session over this engine may take for a command (`Session::command: steps`): for a change
/// what the slots weigh that it touches, and none where it is refused or asks.
pub fn sessions_take_what_is_touched(session: &Session<Recalc>, command: &Command)
    ensures change { (said : OneReply) (after : SessionState) → IsTrue (is_change command.now)
        → step (rules session.now.dict) (session_state session.now) command.now ≡ Ok (said, after)
        → most_steps (⟦<Recalc as FactEngine>⟧.most (accepted session.now.dict)) (rules session.now.dict)
        (session_state session.now) command.now
        ≡ touched_weight (accepted session.now.dict) session.now.timeline.now after.timeline.now }
    ensures refused { (why : Refusal) → step (rules session.now.dict) (session_state session.now) command.now ≡ Err why
        → most_steps (⟦<Recalc as FactEngine>⟧.most (accepted session.now.dict)) (rules session.now.dict)
        (session_state session.now) command.now ≡ 0 }
    ensures question { is_change command.now ≡ false
        → most_steps (⟦<Recalc as FactEngine>⟧.most (accepted session.now.dict)) (rules session.now.dict)
        (session_state session.now) command.now ≡ 0 }
{}

/// A slot that stands after a command and that it doesn't touch keeps its result and its stamp; one that a
/// change touches has the number of the change. Questions leave all as it was.
pub fn untouched_slots_keep_results_and_stamps()
    ensures untouched { UntouchedKeepAll }
    ensures touched { TouchedHaveNumber }
    ensures question { QuestionsChangeNone }
{}
