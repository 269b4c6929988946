// Where an evaluation finds the results of slots.
ghost use Rattle.std.specs.Prelude.{◌≡◌, Option, option_copied};
ghost use Rattle.fact_values.specs.declared.slot.Slot.{Slot};
ghost use Rattle.three_state.specs.declared.res.Res.{Res};
ghost use Rattle.three_state.specs.declared.res.Res.TheVariants.{Incomplete};
ghost use Rattle.evaluation.specs.Results.{result_at};
ghost use Rattle.node_eval.specs.Globals.{amount_of, global_result, whole_of};

use fact_values::{Dollar, Slot, Whole};
use three_state::Res;

/// Where the results of slots are looked up.
pub trait Cells {
    /// The result of each slot that has a cell.
    ghost results: { Self → Slot → Option Res };

    /// The cell of a slot.
    fn cell(&self, slot: Slot) -> Option<&Res>
        ensures { option_copied result ≡ results self.now slot };

    /// The result of a fact that stands once, where that is a complete amount of money.
    fn amount(&self, fact: u32) -> Option<Dollar>
        ensures { result ≡ amount_of (global_result (results self.now) fact) };

    /// The result of a fact that stands once, where that is a complete whole number.
    fn whole(&self, fact: u32) -> Option<Whole>
        ensures { result ≡ whole_of (global_result (results self.now) fact) };
}

/// What is read of a fact at a member: a slot without a cell counts as incomplete.
pub fn result_at<'a, C: Cells>(
    cells: &'a C,
    missing: &'a Res,
    fact: Option<u32>,
    member: u32,
) -> &'a Res
    requires { missing.now ≡ Incomplete }
    ensures { result.now ≡ result_at (C.results cells.now) fact member }
{
    let Some(fact) = fact else {
        return missing;
    };
    match cells.cell(Slot { fact, member }) {
        Some(res) => res,
        None => missing,
    }
}
