// The operations of nodes, as enums.
ghost use Rattle.std.specs.Prelude.{◌≡◌, IfOk};

use crate::lookup_table::LookupTable;
use fact_values::NoMemory;

/// What a node that reads a path asks of the facts that the path names.
#[derive(Clone, Copy, PartialEq, Eq)]
pub enum ReadOp {
    /// The fact's result.
    Dependency,
    /// Whether the fact's result is complete.
    IsComplete,
    /// The number of members.
    CollectionSize,
    /// The sum of a field over the members.
    CollectionSum,
    /// The number of members of which a field is true.
    Count,
}

/// A node with a list of operands.
#[derive(Clone, Copy, PartialEq, Eq)]
pub enum ManyOp {
    All,
    Any,
    Add,
    /// The first operand less the sum of the rest, of two or more operands.
    Subtract,
    GreaterOf,
    LesserOf,
}

/// A node with one operand.
#[derive(Drop)]
pub enum OneOp {
    Not,
    /// To whole dollars.
    Round,
    YearOf,
    /// From 1 to 12; of the law profile.
    MonthOf,
    /// The day of the month; of the law profile.
    DayOf,
    /// The value that a table has for the operand; of the law profile.
    Lookup(LookupTable),
}

impl OneOp {
    /// The same operation. It fails where a table has too many copies.
    pub fn copy(&self) -> Result<OneOp, NoMemory>
        ensures { IfOk result (λ op. op ≡ self.now) }
    {
        Ok(match self {
            OneOp::Not => OneOp::Not,
            OneOp::Round => OneOp::Round,
            OneOp::YearOf => OneOp::YearOf,
            OneOp::MonthOf => OneOp::MonthOf,
            OneOp::DayOf => OneOp::DayOf,
            OneOp::Lookup(table) => OneOp::Lookup(table.copy()?),
        })
    }
}

/// A node with two operands, the left one first.
#[derive(Clone, Copy, PartialEq, Eq)]
pub enum TwoOp {
    Multiply,
    Divide,
    AddDays,
    Equal,
    NotEqual,
    GreaterThan,
    LessThan,
    GreaterThanOrEqual,
    LessThanOrEqual,
    // ---- of the law profile
    /// The same day of the month so many months later, or the month's last.
    AddMonths,
    /// The same day of the year so many years later, or 28 February for a 29th that the year lacks.
    AddYears,
    /// The days from the first day to the second.
    DaysBetween,
    /// The whole years that one born on the first day has completed on the second.
    AgeOn,
    /// The least multiple of an amount that is at least the number. Where the amount isn't positive there is none, and
    /// the result is the fault of a division by 0; so too for `RoundDown` and `RoundNearest`.
    RoundUp,
    /// The greatest multiple that is at most the number.
    RoundDown,
    /// The nearest multiple, at a tie the one farther from zero.
    RoundNearest,
}

/// A node that judges the members of a collection one by one.
#[derive(Clone, Copy, PartialEq, Eq)]
pub enum PickOp {
    /// All members for which the condition is true.
    Filter,
    /// The first of them.
    Find,
}
