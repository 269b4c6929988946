// An engine as C holds it.
ghost use Rattle.std.specs.Prelude.{◌≡◌};
ghost use Rattle.fact_graph_c.specs.declared.engine.Engine.{Engine};
ghost use Rattle.fact_graph_c.specs.contracts.engine.Engine as engine;

use crate::engine::Engine;
use crate::loose::Loose;
use std::alloc::Global;
use std::marker::Model;

/// A box of an engine as C holds it: its pointer.
#[repr(C)]
pub struct Handle {
    at: *mut u8,
    alloc: Global,
    ghost value: { Engine } by { engine.the_row.coded },
}

impl Model for Handle {
    ghost use Rattle.std_alloc.specs.Box.Ownership.{box_owns};
    ghost use Rattle.std_heap.specs.contracts.GlobalAllocator.TheImpl as heap;
    ghost use Rattle.fact_graph_c.specs.contracts.engine.Engine as inner;

    ghost also_owns = { λ h. box_owns (heap.ghosts.dealloc_token h.alloc) inner.the_row h.at h.value };
}

impl Handle {
    fn loosen(self) -> Loose<Engine, Global>
        ensures { result.value ≡ self.value }
    {
        let Handle { at, alloc } = self;
        let at = at as *mut Engine;
        Loose { at, alloc }
    }

    /// The box that C held.
    pub fn into_box(self) -> Box<Engine>
        ensures { result.value ≡ self.value }
    {
        self.loosen().into_box()
    }
}
