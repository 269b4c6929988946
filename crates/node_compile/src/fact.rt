// Compiles the nodes of a fact.
ghost use Rattle.std.specs.Prelude.{◌≡◌, IfOk, option_map, true};
ghost use Rattle.dict_source.specs.Dictionary.{dictionary_view};
ghost use Rattle.dict_source.specs.Facts.{conditional_view, fact_view};
ghost use Rattle.dict_source.specs.Tree.{a_case, literal, no_cases, switch};
ghost use Rattle.dict_source.specs.View.{view};
ghost use Rattle.fact_values.specs.declared.value.Value.TheVariants.{Boolean};
ghost use Rattle.dict_meaning.specs.Plain.{body, conditional_body};
ghost use Rattle.node_eval.specs.View.{case_view, view as node_view};
ghost use Rattle.node_compile.specs.Compiling.{fact_trees, node_tree};
ghost use Rattle.node_compile.specs.FactTrees.{trees_of};

use crate::expression::compile_expr;
use dict_source::{Conditional, DictSource, Expr, FactSource};
use fact_values::{NoMemory, Value};
use node_eval::{Node, NodeCase};
use std::alloc::Global;

/// The node of a fact's body, where it isn't Writable, and that of its placeholder, where it has one.
#[derive(Drop)]
pub struct FactNodes {
    pub main: Option<Node>,
    pub placeholder: Option<Node>,
}

// The main expression, where there is no conditional; else a Switch to the conditional's value where
// its condition is true, and to the main expression.
fn compile_body(
    alloc: Global,
    source: &DictSource,
    fact: u32,
    conditional: &Option<Conditional>,
    main: &Expr,
) -> Result<Node, NoMemory>
    ensures { IfOk result (λ node. node_view node ≡ node_tree (dictionary_view source.now) fact
        (conditional_body (option_map conditional_view conditional.now) (view main.now))) }
{
    match conditional {
        None => compile_expr(alloc, source, fact, 0, main),
        Some(pair) => {
            let case = compile_pair(alloc, source, fact, pair)?;
            match compile_expr(alloc, source, fact, 0, main) {
                Ok(main) => under_condition(alloc, case, main),
                Err(NoMemory) => {
                    drop(case);
                    Err(NoMemory)
                }
            }
        }
    }
}

fn compile_pair(
    alloc: Global,
    source: &DictSource,
    fact: u32,
    pair: &Conditional,
) -> Result<NodeCase, NoMemory>
    ensures { IfOk result (λ case. case_view case ≡ (
      node_tree (dictionary_view source.now) fact (view pair.now.test),
      node_tree (dictionary_view source.now) fact (view pair.now.value),
    )) }
{
    let test = compile_expr(alloc, source, fact, 0, &pair.test)?;
    match compile_expr(alloc, source, fact, 0, &pair.value) {
        Ok(outcome) => Ok(NodeCase { test, outcome }),
        Err(NoMemory) => {
            drop(test);
            Err(NoMemory)
        }
    }
}

// The outcome of the case where its test is true, else the main node.
#[tactic(auto, using(node_eval::proofs::Views::views))]
fn under_condition(alloc: Global, case: NodeCase, main: Node) -> Result<Node, NoMemory>
    ensures { IfOk result (λ node. node_view node ≡ switch (a_case (node_view case.test) (node_view case.outcome)
        (a_case (literal (Boolean true)) (node_view main) no_cases))) }
{
    let otherwise = NodeCase {
        test: Node::Const(Value::Boolean(true)),
        outcome: main,
    };
    match Vec::from_array(alloc, [case, otherwise]) {
        Ok(cases) => Ok(Node::Switch(cases)),
        Err(refused) => {
            drop(refused);
            Err(NoMemory)
        }
    }
}

fn compile_main(
    alloc: Global,
    source: &DictSource,
    number: u32,
    fact: &FactSource,
) -> Result<Option<Node>, NoMemory>
    ensures { IfOk result (λ node. option_map node_view node
        ≡ option_map (node_tree (dictionary_view source.now) number) (body (fact_view fact.now))) }
{
    match &fact.main {
        None => Ok(None),
        Some(main) => {
            let node = compile_body(alloc, source, number, &fact.conditional, main)?;
            Ok(Some(node))
        }
    }
}

fn compile_option(
    alloc: Global,
    source: &DictSource,
    number: u32,
    expr: &Option<Expr>,
) -> Result<Option<Node>, NoMemory>
    ensures { IfOk result (λ node. option_map node_view node
        ≡ option_map (node_tree (dictionary_view source.now) number) (option_map view expr.now)) }
{
    match expr {
        None => Ok(None),
        Some(expr) => {
            let node = compile_expr(alloc, source, number, 0, expr)?;
            Ok(Some(node))
        }
    }
}

/// The nodes of the fact with this number.
pub fn compile_fact(
    alloc: Global,
    source: &DictSource,
    number: u32,
    fact: &FactSource,
) -> Result<FactNodes, NoMemory>
    ensures { IfOk result (λ nodes. trees_of nodes ≡ fact_trees (dictionary_view source.now) number
        (fact_view fact.now)) }
{
    let main = compile_main(alloc, source, number, fact)?;
    let placeholder = compile_option(alloc, source, number, &fact.placeholder)?;
    Ok(FactNodes { main, placeholder })
}
