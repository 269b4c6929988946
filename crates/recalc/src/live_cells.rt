// The results that an evaluation reads from a store: those of its cells, but for the member that went.
ghost use Rattle.std.specs.Prelude.{◌≡◌, option_copied};
ghost use Rattle.node_eval.specs.Globals.{amount_of, global_result, whole_of};
ghost use Rattle.recalc.specs.Running.{is_that, live_results};

use cell_store::Store;
use fact_values::{Dollar, Slot, Whole};
use node_eval::Cells;
use three_state::Res;

/// The results that an evaluation reads.
#[derive(Clone, Copy)]
pub struct LiveCells<'a> {
    pub store: &'a Store,
    /// The member that went, whose cells are still there.
    pub gone: Option<u32>,
}

fn is_that(member: Option<u32>, other: u32) -> bool
    ensures { result ≡ is_that member other }
{
    match member {
        None => false,
        Some(member) => other == member,
    }
}

impl Cells for LiveCells<'_> {
    ghost results = { λ s. live_results s.gone s.store.now.cells };

    fn cell(&self, slot: Slot) -> Option<&Res>
        ensures { option_copied result ≡ live_results self.now.gone self.now.store.now.cells slot }
    {
        if is_that(self.gone, slot.member) {
            return None;
        }
        self.store.get(slot)
    }

    #[inline(always)]
    #[tactic(auto, using(crate::proofs::LiveNumbers::numbers))]
    fn amount(&self, fact: u32) -> Option<Dollar>
        ensures { result ≡ amount_of (global_result (live_results self.now.gone self.now.store.now.cells) fact) }
    {
        if is_that(self.gone, 0) {
            return None;
        }
        self.store.amount(fact)
    }

    #[inline(always)]
    #[tactic(auto, using(crate::proofs::LiveNumbers::numbers))]
    fn whole(&self, fact: u32) -> Option<Whole>
        ensures { result ≡ whole_of (global_result (live_results self.now.gone self.now.store.now.cells) fact) }
    {
        if is_that(self.gone, 0) {
            return None;
        }
        self.store.whole(fact)
    }
}
