// Amounts to whose multiples is rounded.
ghost use Rattle.std.specs.Prelude.{◌≡◌, ◌≤ℤ◌, ◌↔◌, pos, IsSome, IfSome};
ghost use Rattle.law_arithmetic.specs.Increments.{IsIncrement};

use fact_values::Dollar;
use std::marker::Model;

/// An amount of at least one cent and less than 10^15, to whose multiples is rounded.
#[derive(Clone, Copy)]
pub struct Increment {
    cents: u64,
}

impl Model for Increment {
    ghost use Rattle.std.specs.Prelude.{ℕ};
    ghost use Rattle.law_arithmetic.specs.Increments.{IsIncrement};

    ghost Value = { ℕ };

    ghost view = { λ i. i.cents };

    ghost invariant = { λ i. IsIncrement i.cents };

    ghost inverse = { λ n. record { cents = n } };
}

impl Increment {
    /// The amount as an increment, or `None` where it isn't positive.
    pub fn new(amount: Dollar) -> Option<Increment>
        ensures accepted { IsSome result ↔ (pos 1 ≤ℤ amount) }
        ensures value { IfSome result (λ i. pos i ≡ amount) }
    {
        let cents = amount.cents();
        if cents < 1 {
            return None;
        }
        Some(Increment {
            cents: cents.unsigned_abs(),
        })
    }

    /// The number of cents.
    pub fn cents(self) -> u64
        ensures value { result ≡ self }
        ensures in_range { IsIncrement result }
    {
        self.cents
    }
}
