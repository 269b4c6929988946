// Graphs of facts: which fact mentions which.
ghost use Rattle.std.specs.Prelude.{◌≡◌, ◌↔◌, IsTrue, length};
ghost use Rattle.dict_order.specs.Graph.{AreFacts, IsFact, MentionsFacts, graph_of, mentioned};

/// What the fact mentions.
pub fn mentions(graph: &[Vec<u32>], fact: u32) -> &[u32]
    requires { IsFact (graph_of graph.now) fact }
    ensures { result.now ≡ mentioned (graph_of graph.now) fact }
{
    graph[fact as usize - 1].as_slice()
}

fn are_facts(list: &[u32], count: usize) -> bool
    ensures { IsTrue result ↔ AreFacts count list.now }
{
    for fact in list {
        if *fact == 0 {
            return false;
        }
        if *fact as usize > count {
            return false;
        }
    }
    true
}

/// Whether only facts are mentioned, by their numbers from 1 to the length of `graph`: the condition
/// of [`crate::order_graph`].
pub fn mentions_facts(graph: &[Vec<u32>]) -> bool
    ensures { IsTrue result ↔ MentionsFacts (graph_of graph.now) }
{
    for list in graph {
        if !are_facts(list.as_slice(), graph.len()) {
            return false;
        }
    }
    true
}
