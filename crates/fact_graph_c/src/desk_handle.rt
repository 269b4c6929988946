// A desk as C holds it.
ghost use Rattle.std.specs.Prelude.{◌≡◌};
ghost use Rattle.fact_graph_c.specs.declared.desk_engine.DeskEngine.{DeskEngine};
ghost use Rattle.fact_graph_c.specs.contracts.desk_engine.DeskEngine as engine;

use crate::desk_engine::DeskEngine;
use crate::loose::Loose;
use std::alloc::Global;
use std::marker::Model;

/// A box of a desk as C holds it: its pointer.
#[repr(C)]
pub struct DeskHandle {
    at: *mut u8,
    alloc: Global,
    ghost value: { DeskEngine } by { engine.the_row.coded },
}

impl Model for DeskHandle {
    ghost use Rattle.std_alloc.specs.Box.Ownership.{box_owns};
    ghost use Rattle.std_heap.specs.contracts.GlobalAllocator.TheImpl as heap;
    ghost use Rattle.fact_graph_c.specs.contracts.desk_engine.DeskEngine as inner;

    ghost also_owns = { λ h. box_owns (heap.ghosts.dealloc_token h.alloc) inner.the_row h.at h.value };
}

impl DeskHandle {
    fn loosen(self) -> Loose<DeskEngine, Global>
        ensures { result.value ≡ self.value }
    {
        let DeskHandle { at, alloc } = self;
        let at = at as *mut DeskEngine;
        Loose { at, alloc }
    }

    /// The box that C held.
    pub fn into_box(self) -> Box<DeskEngine>
        ensures { result.value ≡ self.value }
    {
        self.loosen().into_box()
    }
}
