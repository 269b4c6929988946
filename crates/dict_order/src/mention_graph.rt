// Makes the graph of a dictionary: which fact mentions which.
ghost use Rattle.std.specs.Prelude.{◌≡◌, ◌≤◌, length, IfOk};
ghost use Rattle.dict_source.specs.Dictionary.{dictionary_view};
ghost use Rattle.dict_order.specs.Graph.{graph_of, mentioned};
ghost use Rattle.dict_order.specs.MentionGraph.{facts_of, mention_graph};

use dict_source::{DictSource, Mention};
use fact_values::NoMemory;
use std::alloc::Global;

// Of which facts these mentions are.
fn numbers_of(alloc: Global, mentions: &[Mention]) -> Result<Vec<u32>, NoMemory>
    ensures { IfOk result (λ list. list.items ≡ facts_of mentions.now) }
{
    Ok(mentions.iter().map(|mention| mention.fact).collect(alloc)?)
}

// The facts that this one mentions.
fn mentions_of(alloc: Global, source: &DictSource, fact: u32) -> Result<Vec<u32>, NoMemory>
    ensures { IfOk result (λ list. list.items ≡ mentioned (mention_graph (dictionary_view source.now)) fact) }
{
    let mentions = source.mentions(alloc, fact)?;
    numbers_of(alloc, mentions.as_slice())
}

/// For each fact, in order, the facts that it mentions.
pub fn graph_of_dictionary(alloc: Global, source: &DictSource) -> Result<Vec<Vec<u32>>, NoMemory>
    ensures value { IfOk result (λ lists. graph_of lists.items ≡ mention_graph (dictionary_view source.now)) }
    ensures few { IfOk result (λ lists. length lists.items ≤ 2000) }
{
    let mut graph = Vec::new(alloc);
    for place in 0..source.facts().len() {
        let mentions = mentions_of(alloc, source, place as u32 + 1)?;
        graph.push(mentions)?;
    }
    Ok(graph)
}
