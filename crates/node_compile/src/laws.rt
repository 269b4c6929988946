// Laws of the nodes of whole facts: they give what the facts give, and have their types. Each function's contract is a law.
ghost use Rattle.node_compile.specs.Laws.{NodesGiveSlots, NodesMeetTypes, NodesVisitSlots, NodesWeighSlots};

/// A slot's result is that of its fact's main node, or the override, the answer or the placeholder's,
/// its weight is that of the nodes, and its evaluation visits as many of them.
pub fn nodes_give_slots()
    ensures result { NodesGiveSlots }
    ensures weight { NodesWeighSlots }
    ensures visits { NodesVisitSlots }
{}

/// Whatever answers stand, over the results of plain evaluation each node meets the condition of
/// evaluation: it has a type, and the cells that it reads are of the right types.
pub fn nodes_meet_types()
    ensures { NodesMeetTypes }
{}
