// Compiles the nodes of all facts.
ghost use Rattle.std.specs.Prelude.{◌≡◌, IfOk, map, option_copied, option_map};
ghost use Rattle.dict_source.specs.Dictionary.{dictionary_view};
ghost use Rattle.dict_types.specs.Typed.{numbered};
ghost use Rattle.dictionary.specs.AcceptedParts.{accepted};
ghost use Rattle.node_eval.specs.View.{view as node_view};
ghost use Rattle.node_compile.specs.Compiled.{IsCompiled, main_of, placeholder_of};
ghost use Rattle.node_compile.specs.Compiling.{facts_trees};
ghost use Rattle.node_compile.specs.FactTrees.{trees_of};

use crate::fact::{FactNodes, compile_fact};
use dict_source::DictSource;
use dictionary::Dictionary;
use fact_values::NoMemory;
use node_eval::Node;
use std::alloc::Global;

/// The nodes of a dictionary's facts, which go by their numbers from 1.
#[derive(Drop)]
pub struct Compiled {
    facts: Vec<FactNodes>,
}

impl Compiled {
    fn fact(&self, fact: u32) -> Option<&FactNodes>
        ensures { option_copied result ≡ numbered self.now.facts.items fact }
    {
        if fact == 0 {
            return None;
        }
        self.facts.get(fact as usize - 1)
    }

    /// The node of the fact's body, which has its conditional. It is None exactly where the fact is
    /// Writable, or there is no fact with this number.
    pub fn main(&self, fact: u32) -> Option<&Node>
        ensures { option_map node_view (option_copied result) ≡ main_of self.now fact }
    {
        match self.fact(fact) {
            None => None,
            Some(nodes) => node_in(&nodes.main),
        }
    }

    /// The node of the fact's placeholder. It is None exactly where the fact has none, or there is no
    /// fact with this number.
    pub fn placeholder(&self, fact: u32) -> Option<&Node>
        ensures { option_map node_view (option_copied result) ≡ placeholder_of self.now fact }
    {
        match self.fact(fact) {
            None => None,
            Some(nodes) => node_in(&nodes.placeholder),
        }
    }
}

fn node_in(node: &Option<Node>) -> Option<&Node>
    ensures { option_copied result ≡ node.now }
{
    match node {
        None => None,
        Some(node) => Some(node),
    }
}

/// The nodes of the dictionary's facts. Over any cells each gives what its expression gives, with the
/// same weight. It fails for want of memory alone.
pub fn compile(alloc: Global, dict: &Dictionary) -> Result<Compiled, NoMemory>
    ensures { IfOk result (IsCompiled (accepted dict.now).tree) }
{
    let facts = compile_facts(alloc, dict.source())?;
    Ok(Compiled { facts })
}

fn compile_facts(alloc: Global, source: &DictSource) -> Result<Vec<FactNodes>, NoMemory>
    ensures { IfOk result (λ all. map trees_of all.items ≡ facts_trees (dictionary_view source.now) 1
        (dictionary_view source.now).facts) }
{
    let facts = source.facts();
    let mut all = Vec::with_capacity(alloc, facts.len())?;
    for (i, fact) in facts.iter().enumerate() {
        let nodes = compile_fact(alloc, source, i as u32 + 1, fact)?;
        all.push(nodes)?;
    }
    Ok(all)
}
