// Tables: values by keys that rise.
ghost use Rattle.std.specs.Prelude.{◌≡◌, ◌+◌, ◌*◌, ◌^◌, ◌≤◌, ◌↔◌, length, IsSome, IfSome};
ghost use Rattle.std.specs.Option.{option_copied};
ghost use Rattle.law_arithmetic.specs.Tables.{IsTable, are_rising as rising, is_table as table, key_of, looked_up};

use crate::bisection::bisect;
use fact_values::Value;
use std::marker::Model;

/// The most rows of a table.
const MOST_ROWS: usize = 1000;

/// A row of a table: from its key on, up to the key of the next row, its value is in force.
#[derive(Drop)]
pub struct Row {
    /// A whole number, an amount in cents, or the number of a day.
    pub key: i64,
    pub value: Value,
}

/// The key that a whole number, an amount in cents or the number of a day is, and 0 for any other value.
pub fn key_of(value: &Value) -> i64
    ensures { result ≡ key_of value.now }
{
    match value {
        Value::Int(n) => n.get(),
        Value::Dollar(amount) => amount.cents(),
        Value::Day(day) => day.number(),
        _ => 0,
    }
}

/// At most 1,000 rows, each with a greater key than the one before.
#[derive(Drop)]
pub struct Table {
    rows: Vec<Row>,
}

impl Model for Table {
    ghost use Rattle.std.specs.Prelude.{List};
    ghost use Rattle.law_arithmetic.specs.declared.table.Row.{Row};
    ghost use Rattle.law_arithmetic.specs.Tables.{IsTable};

    ghost Value = { List Row };

    ghost view = { λ t. t.rows.items };

    ghost invariant = { λ t. IsTable t.rows.items };
}

impl Table {
    /// The table of these rows, or `None` where they are too many or their keys don't rise.
    pub fn new(rows: Vec<Row>) -> Option<Table>
        ensures accepted { IsSome result ↔ IsTable rows.items }
        ensures value { IfSome result (λ t. t ≡ rows.items) }
    {
        if is_table(rows.as_slice()) {
            Some(Table { rows })
        } else {
            None
        }
    }

    /// The rows in their order.
    pub fn rows(&self) -> &[Row]
        ensures value { result.now ≡ self.now }
        ensures table { IsTable result.now }
    {
        self.rows.as_slice()
    }

    /// The value of the last row whose key is at most `n`; none where `n` is below each key.
    pub fn lookup(&self, n: i64) -> Option<&Value>
        ensures { option_copied result ≡ looked_up self.now n }
    {
        let rows = self.rows.as_slice();
        let begun = bisect(rows, n).rows;
        if begun == 0 {
            None
        } else {
            Some(&rows[begun - 1].value)
        }
    }
}

/// Whether the rows make a table.
fn is_table(rows: &[Row]) -> bool
    ensures { result ≡ table rows.now }
{
    rows.len() <= MOST_ROWS && are_rising(rows)
}

/// Whether each key is less than the next.
fn are_rising(rows: &[Row]) -> bool
    ensures { result ≡ rising rows.now }
{
    for i in 1..rows.len() {
        if rows[i].key <= rows[i - 1].key {
            return false;
        }
    }
    true
}
