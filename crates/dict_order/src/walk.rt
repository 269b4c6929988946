// Which facts one fact reaches.
ghost use Rattle.std.specs.Prelude.{◌≡◌, ◌↔◌, ℕ, ◌+◌, ◌<◌, ◌^◌, length, IfOk, IsTrue, OnOk};
ghost use Rattle.dict_order.specs.Graph.{Has, IsFact, MentionsFacts, Reaches, graph_of};
ghost use Rattle.dict_order.specs.Walking.{IsSeen, see as state_after, see_all as state_after_all};

use crate::graph::mentions;
use fact_values::NoMemory;
use std::alloc::Global;

// Marks the fact, and keeps it to be looked at, if it wasn't seen before.
fn see(fact: u32, seen: &mut Vec<bool>, todo: &mut Vec<u32>) -> Result<(), NoMemory>
    requires { fact < length seen.old.items }
    ensures { OnOk result ((seen.new.items, todo.new.items) ≡ state_after fact (seen.old.items, todo.old.items)) }
{
    let place = fact as usize;
    if seen[place] {
        return Ok(());
    }
    seen[place] = true;
    todo.push(fact)?;
    Ok(())
}

fn see_all(facts: &[u32], seen: &mut Vec<bool>, todo: &mut Vec<u32>) -> Result<(), NoMemory>
    requires { (fact : ℕ) → Has facts.now fact → fact < length seen.old.items }
    ensures { OnOk result ((seen.new.items, todo.new.items) ≡ state_after_all facts.now
        (seen.old.items, todo.old.items)) }
{
    for fact in facts {
        see(*fact, seen, todo)?;
    }
    Ok(())
}

// Which facts this one reaches. Place 0 stands for no fact.
fn reached(alloc: Global, graph: &[Vec<u32>], from: u32) -> Result<Vec<bool>, NoMemory>
    requires within { MentionsFacts (graph_of graph.now) }
    requires few { length graph.now < 2 ^ 32 }
    requires there { IsFact (graph_of graph.now) from }
    ensures len { IfOk result (λ seen. length seen.items ≡ length graph.now + 1) }
    ensures exact { IfOk result (λ seen. (fact : ℕ) → IsSeen seen.items fact ↔ Reaches (graph_of graph.now) from fact) }
{
    let mut seen = vec![in alloc; false; graph.len() + 1]?;
    let mut todo = Vec::new(alloc);
    see_all(mentions(graph, from), &mut seen, &mut todo)?;
    while let Some(next) = todo.pop() {
        see_all(mentions(graph, next), &mut seen, &mut todo)?;
    }
    Ok(seen)
}

/// Whether the fact reaches itself.
pub fn reaches_itself(alloc: Global, graph: &[Vec<u32>], fact: u32) -> Result<bool, NoMemory>
    requires within { MentionsFacts (graph_of graph.now) }
    requires few { length graph.now < 2 ^ 32 }
    requires there { IsFact (graph_of graph.now) fact }
    ensures { IfOk result (λ itself. IsTrue itself ↔ Reaches (graph_of graph.now) fact fact) }
{
    let seen = reached(alloc, graph, fact)?;
    Ok(seen[fact as usize])
}
