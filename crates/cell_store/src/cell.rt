// What the store keeps for a slot, its result and its stamp, and what a put displaces.
ghost use Rattle.std.specs.Prelude.{◌≡◌, not};
ghost use Rattle.three_state.specs.Equality.{res_same};

use fact_values::Value;
use three_state::Res;

/// What is kept at a slot.
#[derive(Debug, Drop)]
pub struct Cell {
    pub res: Res,
    /// The number of the last change that touched the slot, and 0 if none did.
    pub stamp: u64,
}

/// What was at a slot before a put.
#[derive(Debug, Drop)]
pub struct Displaced {
    /// The cell that was there.
    pub cell: Option<Cell>,
    /// Whether it had another result than the one that was put.
    pub moved: bool,
}

impl Cell {
    /// Whether its result is another than this one. Complete numbers, the most frequent results by far, are compared at once.
    #[inline(always)]
    pub fn is_other(&self, res: &Res) -> bool
        ensures { result ≡ not (res_same self.now.res res.now) }
    {
        match (&self.res, res) {
            (Res::Complete(Value::Dollar(old)), Res::Complete(Value::Dollar(new))) => {
                old.cents() != new.cents()
            }
            (Res::Complete(Value::Int(old)), Res::Complete(Value::Int(new))) => {
                old.get() != new.get()
            }
            (old, new) => !old.same(new),
        }
    }
}
