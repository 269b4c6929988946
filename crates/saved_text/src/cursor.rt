// Goes through the slots that stand, one after another.
ghost use Rattle.std.specs.Prelude.{◌≡◌};
ghost use Rattle.answers.specs.Meaning.{answered};
ghost use Rattle.dictionary.specs.AcceptedParts.{accepted};
ghost use Rattle.saved_text.specs.Cursors.{first_left, slots_left};
ghost use Rattle.saved_text.specs.SavedText.{slots};

use answers::Answers;
use dictionary::{Dictionary, members_of_home};
use fact_values::Slot;

/// Goes through the slots that stand, fact by fact, and of a fact in the order of the members.
#[derive(Drop)]
pub struct Cursor {
    /// How many facts are done.
    done: u32,
    /// How many slots of the next fact are gone.
    gone: usize,
}

impl Cursor {
    /// Before the first slot.
    pub fn new(dict: &Dictionary, answers: &Answers) -> Cursor
        ensures { slots_left (accepted dict.now).tree (answered answers.now) result ≡ slots (accepted dict.now).tree
            (answered answers.now) }
    {
        let _facts = dict.fact_count();
        let _members = answers.next_number();
        Cursor { done: 0, gone: 0 }
    }

    /// The next slot, behind which the cursor goes.
    pub fn next(&mut self, dict: &Dictionary, answers: &Answers) -> Option<Slot>
        ensures { slots_left (accepted dict.now).tree (answered answers.now) self.old
            ≡ first_left result (slots_left (accepted dict.now).tree (answered answers.now) self.new) }
    {
        while self.done < dict.fact_count() {
            let fact = self.done + 1;
            let home = dict.home(fact);
            let members = members_of_home(answers, home);
            if self.gone < members.len() {
                let member = members[self.gone];
                self.gone += 1;
                return Some(Slot { fact, member });
            }
            self.done = fact;
            self.gone = 0;
        }
        None
    }
}
