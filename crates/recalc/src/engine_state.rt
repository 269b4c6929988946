// What a change works on: the cells, the queue of slots that wait, and the log of what was replaced.
ghost use Rattle.std.specs.Prelude.{◌≡◌, IfOk};
ghost use Rattle.recalc.specs.EngineInvariant.{IsIdle};
ghost use Rattle.recalc.specs.Replacing.{before, CanPutBack, entries};

use crate::dependency_graph::DependencyGraph;
use crate::log::Log;
use cell_store::Store;
use dictionary::Dictionary;
use dirty_slots::DirtyQueue;
use fact_values::NoMemory;
use std::alloc::Global;

/// The cells of the slots, the slots that wait, and what was replaced.
#[derive(Drop)]
pub struct EngineState {
    pub store: Store,
    pub queue: DirtyQueue,
    pub log: Log,
}

impl EngineState {
    /// These cells, and a queue with the graph's places.
    pub fn new(
        alloc: Global,
        dict: &Dictionary,
        graph: &DependencyGraph,
        store: Store,
    ) -> Result<EngineState, NoMemory>
        ensures cells { IfOk result (λ state. state.store ≡ store) }
        ensures idle { IfOk result (λ state. IsIdle state) }
        ensures places { IfOk result (λ state. state.queue.places ≡ graph.now.places.value) }
    {
        let facts = dict.source().facts().len();
        let queue = DirtyQueue::new(alloc, facts, graph.places.clone()?)?;
        let log = Log::new(alloc);
        Ok(EngineState { store, queue, log })
    }

    /// Puts all back as it was, and nothing waits any more. It takes no memory.
    pub fn put_back(&mut self)
        requires { CanPutBack (entries self.old.log) self.old.store.cells }
        ensures cells { self.new.store.cells ≡ before (entries self.old.log) self.old.store.cells }
        ensures idle { IsIdle self.new }
        ensures places { self.new.queue.places ≡ self.old.queue.places }
    {
        self.log.put_back(&mut self.store);
        self.queue.clear();
    }
}
