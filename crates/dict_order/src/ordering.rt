// The ranks of facts, or the first fact on a cycle.
ghost use Rattle.std.specs.Prelude.{◌<◌, ◌^◌, length, IfOk};
ghost use Rattle.dict_source.specs.Dictionary.{dictionary_view};
ghost use Rattle.dict_order.specs.Graph.{HasCycle, IsFirstCycle, MentionsFacts, graph_of};
ghost use Rattle.dict_order.specs.MentionGraph.{mention_graph};
ghost use Rattle.dict_order.specs.Order.{Orders};

use crate::fault::OrderFault;
use crate::mention_graph::graph_of_dictionary;
use crate::ranks::rank_all;
use crate::walk::reaches_itself;
use dict_source::DictSource;
use fact_values::NoMemory;
use std::alloc::Global;

// The lowest fact that reaches itself. One walk over the graph for each fact up to it.
fn first_cycle(alloc: Global, graph: &[Vec<u32>]) -> Result<u32, NoMemory>
    requires within { MentionsFacts (graph_of graph.now) }
    requires few { length graph.now < 2 ^ 32 }
    requires cycle { HasCycle (graph_of graph.now) }
    ensures { IfOk result (λ fact. IsFirstCycle (graph_of graph.now) fact) }
{
    let mut fact = 1;
    while !reaches_itself(alloc, graph, fact)? {
        fact += 1;
    }
    Ok(fact)
}

/// The rank of each fact, where `graph` has for each fact, by its number from 1 on, the facts that it
/// mentions, in any order and as often as they come. A rank is 0 for a fact that mentions nothing,
/// and else 1 more than the greatest rank that it mentions. `Cycle` exactly where some fact reaches
/// itself, and then the lowest that does.
///
/// It takes time in proportion to the mentions, and with a cycle at most to facts times mentions.
pub fn order_graph(alloc: Global, graph: &[Vec<u32>]) -> Result<Vec<u32>, OrderFault>
    requires within { MentionsFacts (graph_of graph.now) }
    requires few { length graph.now < 2 ^ 32 }
    ensures { Orders (graph_of graph.now) result }
{
    match rank_all(alloc, graph)? {
        Some(ranks) => Ok(ranks),
        None => Err(OrderFault::Cycle(first_cycle(alloc, graph)?)),
    }
}

/// The rank of each fact of a dictionary, in the order of its facts: 0 for a fact that mentions nothing,
/// and else 1 more than the greatest rank that it mentions. `Cycle` exactly where some fact reaches
/// itself by one or more mentions in a row, and then the lowest that does.
///
/// It takes time in proportion to the mentions, and with a cycle at most to facts times mentions.
pub fn order(alloc: Global, source: &DictSource) -> Result<Vec<u32>, OrderFault>
    ensures { Orders (mention_graph (dictionary_view source.now)) result }
{
    let graph = graph_of_dictionary(alloc, source)?;
    order_graph(alloc, graph.as_slice())
}
