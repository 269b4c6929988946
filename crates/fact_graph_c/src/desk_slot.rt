// Where C keeps a desk.
ghost use Rattle.std.specs.Prelude.{◌≡◌, Option, Some};
ghost use Rattle.std.specs.Coded.{coded_option};
ghost use Rattle.fact_graph_c.specs.declared.desk_engine.DeskEngine.{DeskEngine};
ghost use Rattle.fact_graph_c.specs.contracts.desk_engine.DeskEngine as engine;

use crate::desk_engine::DeskEngine;
use crate::loose::Loose;
use std::alloc::Global;
use std::marker::Model;

/// Where C keeps a box of a desk: its pointer, or one at which nothing is.
#[repr(C)]
#[derive(Drop)]
pub struct DeskSlot {
    at: *mut u8,
    alloc: Global,
    pub ghost value: { Option DeskEngine } by { coded_option engine.the_row.coded },
}

impl Model for DeskSlot {
    ghost use Rattle.fact_graph_c.specs.Held.{held_desk};

    ghost also_owns = { λ p. held_desk p.alloc p.at p.value };
}

impl DeskSlot {
    fn of(loose: Loose<DeskEngine, Global>) -> DeskSlot
        ensures { result.value ≡ Some loose.value }
    {
        let Loose { at, alloc } = loose;
        let at = at as *mut u8;
        DeskSlot { at, alloc }
    }
}

/// Gives the box to C.
pub fn keep_desk(engine: Box<DeskEngine>) -> DeskSlot
    ensures { result.value ≡ Some engine.value }
{
    DeskSlot::of(Loose::of(engine))
}
