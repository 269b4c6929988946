// Sums that are exact on the way, and tested against the range once, at their end.
ghost use Rattle.std.specs.Prelude.{◌≡◌, ◌+◌, ◌+ℤ◌, ◌-ℤ◌, ◌<◌, ◌^◌};
ghost use Rattle.fact_values.specs.Range.{IsInRange};
ghost use Rattle.fact_values.specs.Totals.{checked};

use crate::fault::ValueFault;
use crate::range::LIMIT;
use std::marker::Model;

/// The sum of many whole numbers, or of many amounts in cents, kept exactly. It may leave their
/// range on the way, since only its end is tested.
#[derive(Debug, Drop)]
pub struct Total {
    exact: i128,
    // 2^64 of them can be counted.
    calls: u128,
}

impl Model for Total {
    ghost use Rattle.fact_values.specs.Totals.{Sum};

    ghost Value = { Sum };

    ghost use Rattle.std.specs.Prelude.{◌+◌, ◌*◌, ◌^◌, ◌≤◌, unsigned_abs};

    ghost view = { λ t. record { exact = t.exact; calls = t.calls } };

    ghost invariant = { λ t.
        (t.calls ≤ 2 ^ 64) × (unsigned_abs t.exact ≤ 1000000000000000 * (t.calls + 1)) };
}

impl Total {
    /// Starts at a number, which is no call of `plus`.
    pub fn new(first: i64) -> Total
        requires { IsInRange first }
        ensures exact { result.exact ≡ first }
        ensures calls { result.calls ≡ 0 }
    {
        Total {
            exact: first as i128,
            calls: 0,
        }
    }

    /// Adds a number.
    pub fn plus(&mut self, n: i64)
        requires in_range { IsInRange n }
        requires few { self.old.calls < 2 ^ 64 }
        ensures exact { self.new.exact ≡ self.old.exact +ℤ n }
        ensures calls { self.new.calls ≡ self.old.calls + 1 }
    {
        self.exact += n as i128;
        self.calls += 1;
    }

    /// Takes a number away.
    pub fn minus(&mut self, n: i64)
        requires in_range { IsInRange n }
        requires few { self.old.calls < 2 ^ 64 }
        ensures exact { self.new.exact ≡ self.old.exact -ℤ n }
        ensures calls { self.new.calls ≡ self.old.calls + 1 }
    {
        self.exact -= n as i128;
        self.calls += 1;
    }

    /// The sum, or `Overflow` where it is out of range.
    pub fn end(&self) -> Result<i64, ValueFault>
        ensures { result ≡ checked self.now.exact }
    {
        if self.exact.unsigned_abs() < u128::from(LIMIT) {
            Ok(self.exact as i64)
        } else {
            Err(ValueFault::Overflow)
        }
    }
}
