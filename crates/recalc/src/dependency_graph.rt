// The compiled nodes and the readers of all facts, which engines over one dictionary share.
ghost use Rattle.std.specs.Prelude.{IfOk};
ghost use Rattle.dictionary.specs.AcceptedParts.{accepted};
ghost use Rattle.recalc.specs.EngineInvariant.{IsGraphOf};

use crate::global_places::global_places;
use crate::placed_readers::{PlacedReaders, place_readers};
use dep_index::{Readers, build};
use dictionary::Dictionary;
use dirty_slots::Places;
use fact_values::NoMemory;
use node_compile::{Compiled, compile};
use std::alloc::Global;
use std::sync::Arc;

/// The facts of a dictionary as nodes, and for each fact those that read it.
#[derive(Drop)]
pub struct DependencyGraph {
    pub nodes: Compiled,
    pub readers: Readers,
    /// The places of the slots of global facts.
    pub places: Arc<Places>,
    /// The same readers, of which global facts stand as their places.
    pub placed: Vec<PlacedReaders>,
}

impl DependencyGraph {
    /// The graph of a dictionary.
    pub fn new(alloc: Global, dict: &Dictionary) -> Result<DependencyGraph, NoMemory>
        ensures { IfOk result (λ g. IsGraphOf (accepted dict.now) g) }
    {
        let nodes = compile(alloc, dict)?;
        let readers = build(alloc, dict)?;
        let places = global_places(alloc, dict)?;
        let placed = place_readers(alloc, dict, &places, &readers)?;
        Ok(DependencyGraph {
            nodes,
            readers,
            places: Arc::new(alloc, places)?,
            placed,
        })
    }
}
