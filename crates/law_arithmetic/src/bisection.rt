// Which rows of a table have begun, by bisection.
ghost use Rattle.std.specs.Prelude.{◌≡◌, ◌+◌, ◌*◌, ◌^◌, ◌≤◌, IsTrue, length, take};
ghost use Rattle.std.specs.List.{filter};
ghost use Rattle.law_arithmetic.specs.Bisection.{IsNarrowed};
ghost use Rattle.law_arithmetic.specs.Tables.{are_rising, has_begun};

use crate::table::Row;

/// What a bisection found.
#[derive(Clone, Copy)]
pub(crate) struct Found {
    /// How many rows have a key of at most the number. They are the first ones.
    pub rows: usize,
    /// In how many turns that was found.
    pub turns: usize,
}

/// A part of the rows: those before it have begun, and those behind it haven't.
#[derive(Clone, Copy)]
struct Part {
    first: usize,
    length: usize,
}

/// How many rows have a key of at most `n`. Each turn leaves at most half of the rows.
pub(crate) fn bisect(rows: &[Row], n: i64) -> Found
    requires { IsTrue (are_rising rows.now) }
    ensures within { result.rows ≤ length rows.now }
    ensures begun { filter (has_begun n) rows.now ≡ take result.rows rows.now }
    ensures turns { 2 ^ result.turns ≤ 2 * length rows.now + 1 }
{
    let mut part = Part {
        first: 0,
        length: rows.len(),
    };
    let mut turns = 0;
    while part.length > 0 {
        part = halve(rows, n, part);
        turns += 1;
    }
    Found {
        rows: part.first,
        turns,
    }
}

/// The half of a part in which the first row that hasn't begun is to be sought.
fn halve(rows: &[Row], n: i64, part: Part) -> Part
    requires rising { IsTrue (are_rising rows.now) }
    requires some { 1 ≤ part.length }
    requires narrowed { IsNarrowed rows.now n part.first part.length }
    ensures half { 2 * result.length ≤ part.length }
    ensures narrowed { IsNarrowed rows.now n result.first result.length }
{
    let before = part.length / 2;
    let middle = part.first + before;
    if rows[middle].key <= n {
        Part {
            first: middle + 1,
            length: part.length - before - 1,
        }
    } else {
        Part {
            first: part.first,
            length: before,
        }
    }
}
