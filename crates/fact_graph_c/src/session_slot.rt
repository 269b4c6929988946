// Where C keeps an engine.
ghost use Rattle.std.specs.Prelude.{◌≡◌, Option, Some};
ghost use Rattle.std.specs.Coded.{coded_option};
ghost use Rattle.fact_graph_c.specs.declared.engine.Engine.{Engine};
ghost use Rattle.fact_graph_c.specs.contracts.engine.Engine as engine;

use crate::engine::Engine;
use crate::loose::Loose;
use std::alloc::Global;
use std::marker::Model;

/// Where C keeps a box of an engine: its pointer, or one at which nothing is.
#[repr(C)]
#[derive(Drop)]
pub struct SessionSlot {
    at: *mut u8,
    alloc: Global,
    pub ghost value: { Option Engine } by { coded_option engine.the_row.coded },
}

impl Model for SessionSlot {
    ghost use Rattle.fact_graph_c.specs.Held.{held};

    ghost also_owns = { λ p. held p.alloc p.at p.value };
}

impl SessionSlot {
    fn of(loose: Loose<Engine, Global>) -> SessionSlot
        ensures { result.value ≡ Some loose.value }
    {
        let Loose { at, alloc } = loose;
        let at = at as *mut u8;
        SessionSlot { at, alloc }
    }
}

/// Gives the box to C.
pub fn keep(engine: Box<Engine>) -> SessionSlot
    ensures { result.value ≡ Some engine.value }
{
    SessionSlot::of(Loose::of(engine))
}
