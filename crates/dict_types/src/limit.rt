// Limits on the answers of a fact.
use fact_values::Value;

/// A limit on the answers of a writable fact.
#[derive(Drop)]
pub enum Limit {
    Min(Value),
    Max(Value),
    /// The most bytes of a text.
    MaxLength(u32),
    /// The place of the check in the table, from 0.
    Check(u32),
}
