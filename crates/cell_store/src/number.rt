// What the result of a cell is as a plain number, so that a sum can read it without the cell.
ghost use Rattle.std.specs.Prelude.{◌≡◌, option_copied};
ghost use Rattle.cell_store.specs.Numbers.{amount_in, number_in, number_of, whole_in};

use crate::cell::Cell;
use fact_values::{Dollar, Value, Whole};
use three_state::Res;

/// A complete amount of money, a complete whole number, or none of both.
#[derive(Clone, Copy, Debug)]
pub enum CellNumber {
    Other,
    Amount(Dollar),
    WholeNumber(Whole),
}

impl CellNumber {
    /// What a result is as a plain number.
    pub fn new(res: &Res) -> CellNumber
        ensures { result ≡ number_in res.now }
    {
        match res {
            Res::Complete(Value::Dollar(amount)) => CellNumber::Amount(*amount),
            Res::Complete(Value::Int(number)) => CellNumber::WholeNumber(*number),
            _ => CellNumber::Other,
        }
    }

    /// What the result of a cell is.
    pub fn of_cell(cell: Option<&Cell>) -> CellNumber
        ensures { result ≡ number_of (option_copied cell.entry) }
    {
        match cell {
            Some(cell) => CellNumber::new(&cell.res),
            None => CellNumber::Other,
        }
    }

    /// The amount of money.
    #[inline(always)]
    pub fn amount(self) -> Option<Dollar>
        ensures { result ≡ amount_in self }
    {
        match self {
            CellNumber::Amount(amount) => Some(amount),
            CellNumber::Other | CellNumber::WholeNumber(_) => None,
        }
    }

    /// The whole number.
    #[inline(always)]
    pub fn whole(self) -> Option<Whole>
        ensures { result ≡ whole_in self }
    {
        match self {
            CellNumber::WholeNumber(number) => Some(number),
            CellNumber::Other | CellNumber::Amount(_) => None,
        }
    }
}
