// Laws of nodes over cells: the cells that one reads decide its result, and where it takes memory. Each function's contract is a
// law.
ghost use Rattle.node_eval.specs.NodeTypes.{TypedTakesMemory};
ghost use Rattle.node_eval.specs.SlotsOf.{CellsDecide};

/// The cells that an evaluation reads decide its result.
pub fn cells_decide()
    ensures { CellsDecide }
{}

/// The evaluation of a typed node takes memory only where some expression of it is of the type Text
/// or of a Collection.
pub fn typed_nodes_take_memory_for_texts_and_lists()
    ensures { TypedTakesMemory }
{}
