// Compiled nodes: expressions whose paths and constants are resolved.
use dict_source::{ManyOp, OneOp, PickOp, TwoOp};
use fact_values::Value;

/// An expression with its types settled, its constants read, and its paths resolved to the numbers
/// of facts.
#[derive(Drop)]
#[cycle(node)]
pub enum Node {
    Const(Value),
    Read(NodeRead, ResolvedPath),
    /// The outcome of the first case whose test is true.
    Switch(Vec<NodeCase>),
    Many(ManyOp, Vec<Node>),
    /// The same where each operand is a Dependency of a fact that stands once: the facts, in order.
    Globals(ManyOp, Vec<u32>),
    One(OneOp, Box<Node>),
    /// A comparison's first operand is on its left.
    Two(TwoOp, Box<Node>, Box<Node>),
    /// The collection, and the condition that its members are to meet.
    Pick(PickOp, ResolvedPath, Box<Node>),
}

/// One case of a switch.
#[derive(Drop)]
#[cycle(node)]
pub struct NodeCase {
    pub test: Node,
    pub outcome: Node,
}

/// What a node that reads asks of the facts that its path names.
#[derive(Clone, Copy, PartialEq, Eq)]
pub enum NodeRead {
    /// The fact's result.
    Dependency,
    /// Whether the fact's result is complete.
    IsComplete,
    /// The number of members.
    CollectionSize,
    /// The sum of a field of whole numbers over the members.
    SumInt,
    /// The sum of a field of amounts over the members.
    SumDollar,
    /// The number of members of which a field is true.
    Count,
}

/// The facts that a use path names, by their numbers, in the order of the path.
#[derive(Clone, Copy, PartialEq, Eq)]
pub enum ResolvedPath {
    /// `/N`: a fact that stands once.
    Global(u32),
    /// `../N`: a fact of the same member.
    Same(u32),
    /// `N`: a fact of the condition's member.
    Inner(u32),
    /// `/N/*/M`: a collection, and a fact of each of its members.
    Each(u32, u32),
    /// `/N/M`: a fact whose value is a member, and a fact of that member.
    Through(u32, u32),
    /// `../N/M`: a fact of the same member whose value is a member, and a fact of that one.
    SameThrough(u32, u32),
}
