// Laws of the types of nodes: they are inferred, the first node at fault is named, and each constant has its value. Each
// function's contract is a law.
ghost use Rattle.node_types.specs.Constants.{ValuesAreOfNodes};
ghost use Rattle.node_types.specs.FactTyping.{ReadsAreByRule};
ghost use Rattle.node_types.specs.NodeFaults.{FirstFaultIsNamed, HadIsInferred, InferredIsHad, OneTypeAtMost};

/// What is inferred of an expression is its type by the rules: one at most. What a node reads has its type by the rules too.
pub fn types_are_inferred()
    ensures sound { InferredIsHad }
    ensures complete { HadIsInferred }
    ensures one { OneTypeAtMost }
    ensures reads { ReadsAreByRule }
{}

/// Where nothing is inferred, the node that is named is the first at fault.
pub fn the_first_node_is_named()
    ensures { FirstFaultIsNamed }
{}

/// The values that are kept are those of the fact's nodes, in preorder.
pub fn values_are_of_nodes()
    ensures { ValuesAreOfNodes }
{}
