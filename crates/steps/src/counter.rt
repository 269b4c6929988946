// The counter of steps, which exists for contracts alone.
ghost use Rattle.std.specs.Prelude.{◌≡◌, ◌+◌, ◌<◌};

use std::marker::Model;
use std::sync::ledger::{Blank, Book, Ledger, Share};

/// How many steps were taken. It has no bytes and its calls have no code, so a counted run costs
/// what an uncounted one does. Nothing but `tick` changes the number, which can't go down, and no
/// counter can be copied.
///
/// A function that counts takes `steps: &mut Steps<L>` for any `L: Ledger`, and bounds its work by
/// `steps.old` and `steps.new`. What one step stands for is said where it ticks.
///
/// A caller that counts nothing has a private function over `L: Ledger` that takes a `Blank` with
/// the clauses of [`Steps::new`], makes the counter and goes on. It calls that function at
/// `std::marker::Brand`, as `run_counted::<Brand>(Blank::new(1))`, and picks the ledger in its
/// proof: `ghosts-run_counted a = record { name = a.blank.name; parts = a.blank.parts }`.
#[derive(Drop)]
pub struct Steps<L: Ledger> {
    book: Book<L>,
    share: Share<L>,
}

impl<L: Ledger> Model for Steps<L> {
    ghost use Rattle.std.specs.Prelude.{ℕ, ◌<◌};

    ghost Value = { ℕ };

    ghost view = { λ s. s.book.total };

    ghost invariant = { λ s. 0 < s.share.parts };
}

impl<L: Ledger> Steps<L> {
    /// No steps yet. The blank is the one that `L` names.
    pub fn new(blank: Blank) -> Steps<L>
        requires name { blank.name ≡ L.name }
        requires parts { blank.parts ≡ L.parts }
        requires some { 0 < blank.parts }
        ensures { result ≡ 0 }
    {
        let (book, share) = blank.open();
        Steps { book, share }
    }

    /// Counts one step.
    pub fn tick(&mut self)
        ensures { self.new ≡ self.old + 1 }
    {
        self.book.add(&mut self.share, 1);
    }
}
