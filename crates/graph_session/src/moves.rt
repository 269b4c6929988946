// Steps along the history: undo and redo.
ghost use Rattle.std.specs.Prelude.{◌≡◌, [], false, IfErr, OnErr, OnOk};
ghost use Rattle.answers.specs.Meaning.{answered};
ghost use Rattle.session_undo.specs.Directions.{reversed};
ghost use Rattle.session_undo.specs.History.{place};
ghost use Rattle.session_undo.specs.UndoState.{IsConsistent};
ghost use Rattle.session_undo.specs.Timeline.{timeline};
ghost use Rattle.session_undo.specs.declared.direction.Direction.TheVariants.{Back, Forth};
ghost use Rattle.graph_session.specs.Moves.{CanStep, changes_along, end_refusal, is_end, stepped};
ghost use Rattle.graph_session.specs.Refusals.{Refused, when};

use crate::reply::Refusal;
use answers::Answers;
use session_undo::{Direction, History, UndoRefusal};

fn step_back(history: &mut History, answers: &mut Answers) -> Result<(), Refusal>
    requires { IsConsistent (place history.old answers.old) }
    ensures moved { OnOk result (place history.new answers.new ≡ stepped Back (place history.old answers.old)) }
    ensures some { OnOk result (is_end Back (timeline (place history.old answers.old)) ≡ false) }
    ensures can_return { OnOk result (CanStep Forth history.new answers.new) }
    ensures refused { IfErr result (λ r. Refused r (when (is_end Back (timeline (place history.old answers.old)))
        (end_refusal Back))) }
    ensures unchanged { OnErr result (place history.new answers.new ≡ place history.old answers.old) }
{
    match history.back(answers) {
        Ok(()) => Ok(()),
        Err(UndoRefusal::NothingToUndo) => Err(Refusal::NothingToUndo),
        Err(UndoRefusal::NothingToRedo) => Err(Refusal::NothingToRedo),
        Err(UndoRefusal::NoMemory) => Err(Refusal::NoMemory),
    }
}

fn step_forth(history: &mut History, answers: &mut Answers) -> Result<(), Refusal>
    requires { IsConsistent (place history.old answers.old) }
    ensures moved { OnOk result (place history.new answers.new ≡ stepped Forth (place history.old answers.old)) }
    ensures some { OnOk result (is_end Forth (timeline (place history.old answers.old)) ≡ false) }
    ensures can_return { OnOk result (CanStep Back history.new answers.new) }
    ensures refused { IfErr result (λ r. Refused r (when (is_end Forth (timeline (place history.old answers.old)))
        (end_refusal Forth))) }
    ensures unchanged { OnErr result (place history.new answers.new ≡ place history.old answers.old) }
{
    match history.forth(answers) {
        Ok(()) => Ok(()),
        Err(UndoRefusal::NothingToUndo) => Err(Refusal::NothingToUndo),
        Err(UndoRefusal::NothingToRedo) => Err(Refusal::NothingToRedo),
        Err(UndoRefusal::NoMemory) => Err(Refusal::NoMemory),
    }
}

/// Goes to the answers after the place, or to those before it.
pub fn step_along(
    history: &mut History,
    answers: &mut Answers,
    direction: Direction,
) -> Result<(), Refusal>
    requires { IsConsistent (place history.old answers.old) }
    ensures moved { OnOk result (place history.new answers.new ≡ stepped direction (place history.old answers.old)) }
    ensures some { OnOk result (is_end direction (timeline (place history.old answers.old)) ≡ false) }
    ensures can_return { OnOk result (CanStep (reversed direction) history.new answers.new) }
    ensures refused { IfErr result (λ r. Refused r (when (is_end direction (timeline (place history.old answers.old)))
        (end_refusal direction))) }
    ensures unchanged { OnErr result (place history.new answers.new ≡ place history.old answers.old) }
{
    match direction {
        Direction::Back => step_back(history, answers),
        Direction::Forth => step_forth(history, answers),
    }
}

/// Takes back a step that was just made in this direction.
pub fn step_against(history: &mut History, answers: &mut Answers, direction: Direction)
    requires kept { IsConsistent (place history.old answers.old) }
    requires can { CanStep (reversed direction) history.old answers.old }
    requires some { changes_along (reversed direction) (place history.old answers.old) ≡ [] → ⊥ }
    ensures { place history.new answers.new ≡ stepped (reversed direction) (place history.old answers.old) }
{
    match direction {
        Direction::Back => {
            let _ = history.forth(answers);
        }
        Direction::Forth => {
            let _ = history.back(answers);
        }
    }
}
