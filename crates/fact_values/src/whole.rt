// Whole numbers in the range of a value.
ghost use Rattle.std.specs.Prelude.{◌≡◌, ◌↔◌, IsSome, IfSome};
ghost use Rattle.fact_values.specs.Range.{IsInRange};

use crate::range::is_in_range;
use std::marker::Model;

/// A whole number, from -(10^15 - 1) to 10^15 - 1.
#[derive(Clone, Copy, Debug, PartialEq, Eq, PartialOrd, Ord, Hash)]
pub struct Whole {
    number: i64,
}

impl Model for Whole {
    ghost use Rattle.std.specs.Prelude.{ℤ};
    ghost use Rattle.fact_values.specs.Range.{IsInRange};

    ghost Value = { ℤ };

    ghost view = { λ w. w.number };

    ghost invariant = { λ w. IsInRange w.number };

    ghost inverse = { λ number. record { number = number } };
}

impl Whole {
    /// The number as a value, or `None` out of the range.
    pub fn new(n: i64) -> Option<Whole>
        ensures in_range { IsSome result ↔ IsInRange n }
        ensures value { IfSome result (λ w. w ≡ n) }
    {
        if is_in_range(n) {
            Some(Whole { number: n })
        } else {
            None
        }
    }

    /// The number itself.
    pub fn get(self) -> i64
        ensures value { result ≡ self }
        ensures in_range { IsInRange result }
    {
        self.number
    }
}
