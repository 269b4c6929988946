// The range of whole numbers and of amounts.
ghost use Rattle.std.specs.Prelude.{◌≡◌};
ghost use Rattle.fact_values.specs.Range.{is_in_range as in_range};

/// The size that no whole number and no amount in cents reaches.
pub(crate) const LIMIT: u64 = 1_000_000_000_000_000;

/// Whether a whole number, or an amount in cents, is small enough to be the value of a fact.
pub fn is_in_range(n: i64) -> bool
    ensures { result ≡ in_range n }
{
    n.unsigned_abs() < LIMIT
}
