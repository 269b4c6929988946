// Amounts of money, in whole cents.
ghost use Rattle.std.specs.Prelude.{◌≡◌, ◌↔◌, IsSome, IfSome};
ghost use Rattle.fact_values.specs.Range.{IsInRange};

use crate::range::is_in_range;
use std::marker::Model;

/// An amount in whole cents, from -(10^15 - 1) to 10^15 - 1.
#[derive(Clone, Copy, Debug, PartialEq, Eq, PartialOrd, Ord, Hash)]
pub struct Dollar {
    cents: i64,
}

impl Model for Dollar {
    ghost use Rattle.std.specs.Prelude.{ℤ};
    ghost use Rattle.fact_values.specs.Range.{IsInRange};

    ghost Value = { ℤ };

    ghost view = { λ d. d.cents };

    ghost invariant = { λ d. IsInRange d.cents };

    ghost inverse = { λ cents. record { cents = cents } };
}

impl Dollar {
    /// The amount of so many cents, or `None` out of the range.
    pub fn new(cents: i64) -> Option<Dollar>
        ensures in_range { IsSome result ↔ IsInRange cents }
        ensures value { IfSome result (λ d. d ≡ cents) }
    {
        if is_in_range(cents) {
            Some(Dollar { cents })
        } else {
            None
        }
    }

    /// The whole amount in cents.
    pub fn cents(self) -> i64
        ensures value { result ≡ self }
        ensures in_range { IsInRange result }
    {
        self.cents
    }
}
