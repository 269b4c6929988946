//! Tests of `session_undo`: its calls where memory is ample. What is undone and redone is stored cases.
ghost use Rattle.std.specs.Prelude.{IsTrue};
ghost use Rattle.answers.specs.Meaning.{answered};
ghost use Rattle.session_undo.specs.History.{behind, NewestFits};

use answers::{Answers, Edit};
use session_undo::{Direction, History, UndoRefusal};

const LIST: u32 = 5;

/// Adds a member, and keeps what undoes that.
fn add(history: &mut History, answers: &mut Answers) -> bool
    ensures { IsTrue result → NewestFits (behind history.new) (answered answers.new) }
{
    let is_short = match answers.members(LIST) {
        Some(members) => members.len() < 100,
        None => true,
    };
    if !is_short || answers.next_number() > 1_000_000 {
        return false;
    }
    match answers.apply(Edit::AddNew(LIST)) {
        Ok(back) => history.push(back).is_ok(),
        Err(_) => false,
    }
}

// Whether the collection is open, and the next member has this number.
fn stands(answers: &Answers, is_open: bool, next: u32) -> bool {
    answers.members(LIST).is_some() == is_open && answers.next_number() == next
}

#[test]
fn nothing_is_undone_at_first(rt: HostRuntime) {
    let mut answers = Answers::new(rt.alloc());
    let mut history = History::new(rt.alloc());
    assert!(rt; history.back(&mut answers) == Err(UndoRefusal::NothingToUndo));
}

#[test]
fn an_added_member_goes_and_comes_again(rt: HostRuntime) {
    let mut answers = Answers::new(rt.alloc());
    let mut history = History::new(rt.alloc());
    assert!(rt; history.room().is_ok());
    assert!(rt; add(&mut history, &mut answers));
    assert!(rt; history.returning(Direction::Forth).is_some());
    assert!(rt; history.back(&mut answers).is_ok());
    assert!(rt; stands(&answers, false, 1));
    assert!(rt; history.forth(&mut answers).is_ok());
    assert!(rt; stands(&answers, true, 2));
}

#[test]
fn an_edit_has_56_bytes(rt: HostRuntime) {
    assert!(rt; std::mem::size_of::<Edit>() == 56);
}
