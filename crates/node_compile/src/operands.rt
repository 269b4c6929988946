// Compiles an operation with many operands.
ghost use Rattle.std.specs.Prelude.{◌≡◌, IfOk, IfSome};
ghost use Rattle.dict_source.specs.Tree.{many};
ghost use Rattle.node_eval.specs.View.{global_read, globals_view, trees_view, view};

use dict_source::ManyOp;
use fact_values::NoMemory;
use node_eval::{Node, NodeRead, ResolvedPath};
use std::alloc::Global;

// The fact, where the operand is a Dependency of one that stands once.
#[tactic(auto, using(node_eval::proofs::Views::views))]
fn global_of(operand: &Node) -> Option<u32>
    ensures { IfSome result (λ fact. view operand.now ≡ global_read fact) }
{
    match operand {
        Node::Read(NodeRead::Dependency, ResolvedPath::Global(fact)) => Some(*fact),
        _ => None,
    }
}

// The facts, where each operand is such a Dependency.
fn globals_of(alloc: Global, operands: &[Node]) -> Result<Option<Vec<u32>>, NoMemory>
    ensures { IfOk result (λ found. IfSome found (λ facts. globals_view facts.items ≡ trees_view operands.now)) }
{
    let mut facts = Vec::with_capacity(alloc, operands.len())?;
    for operand in operands {
        match global_of(operand) {
            Some(fact) => facts.push(fact)?,
            None => return Ok(None),
        }
    }
    Ok(Some(facts))
}

/// The node of an operation with these operands. Where each is a Dependency of a fact that stands once, it has the facts alone.
#[tactic(auto, using(node_eval::proofs::Views::views))]
pub fn many_node(alloc: Global, op: ManyOp, operands: Vec<Node>) -> Result<Node, NoMemory>
    ensures { IfOk result (λ node. view node ≡ many op (trees_view operands.items)) }
{
    match globals_of(alloc, operands.as_slice()) {
        Ok(Some(facts)) => {
            drop(operands);
            Ok(Node::Globals(op, facts))
        }
        Ok(None) => Ok(Node::Many(op, operands)),
        Err(NoMemory) => {
            drop(operands);
            Err(NoMemory)
        }
    }
}
