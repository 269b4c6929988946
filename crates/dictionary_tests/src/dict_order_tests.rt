//! Tests of `dict_order` over graphs. Cycles of dictionaries, and chains of 2,000 facts, are stored cases.
use dict_order::{OrderFault, mentions_facts, order_graph};
use std::alloc::Global;

fn graph_from(alloc: Global, lists: &[&[u32]]) -> Option<Vec<Vec<u32>>> {
    let mut graph = Vec::new(alloc);
    for list in lists {
        graph.push(Vec::from_slice(alloc, list).ok()?).ok()?;
    }
    Some(graph)
}

// The ranks, or the fact that the fault names; none where what is no fact is mentioned.
fn ordered(alloc: Global, graph: &[Vec<u32>]) -> Option<Result<Vec<u32>, OrderFault>> {
    if graph.len() > 10_000 || !mentions_facts(graph) {
        return None;
    }
    Some(order_graph(alloc, graph))
}

fn are_ranks(outcome: Result<Vec<u32>, OrderFault>, wanted: &[u32]) -> bool {
    match outcome {
        Ok(ranks) => ranks.as_slice() == wanted,
        Err(_) => false,
    }
}

fn is_ordered(alloc: Global, graph: &[Vec<u32>], wanted: &[u32]) -> bool {
    match ordered(alloc, graph) {
        Some(outcome) => are_ranks(outcome, wanted),
        None => false,
    }
}

// Whether these ranks are those of the facts that mention these.
fn has_ranks(alloc: Global, lists: &[&[u32]], wanted: &[u32]) -> bool {
    match graph_from(alloc, lists) {
        Some(graph) => is_ordered(alloc, graph.as_slice(), wanted),
        None => false,
    }
}

fn chains_have_ranks(alloc: Global) -> bool {
    has_ranks(alloc, &[], &[])
        && has_ranks(alloc, &[&[], &[]], &[0, 0])
        && has_ranks(alloc, &[&[], &[1], &[2]], &[0, 1, 2])
        && has_ranks(alloc, &[&[2], &[3], &[]], &[2, 1, 0])
}

// 1 more than the greatest; a mention is repeated; two facts share one below.
fn graphs_have_ranks(alloc: Global) -> bool {
    has_ranks(alloc, &[&[4, 3, 2], &[3], &[4], &[]], &[3, 2, 1, 0])
        && has_ranks(alloc, &[&[2, 2, 3, 2], &[], &[2, 2]], &[2, 0, 1])
        && has_ranks(alloc, &[&[3], &[3], &[], &[1, 2]], &[1, 1, 0, 2])
}

#[test]
fn ranks_are_one_more_than_the_greatest_mentioned(rt: HostRuntime) {
    assert!(rt; chains_have_ranks(rt.alloc()));
    assert!(rt; graphs_have_ranks(rt.alloc()));
}

fn is_cycle(outcome: Result<Vec<u32>, OrderFault>, fact: u32) -> bool {
    match outcome {
        Ok(_) => false,
        Err(fault) => fault == OrderFault::Cycle(fact),
    }
}

fn is_refused(alloc: Global, graph: &[Vec<u32>], fact: u32) -> bool {
    match ordered(alloc, graph) {
        Some(outcome) => is_cycle(outcome, fact),
        None => false,
    }
}

// Whether this is the lowest of the facts that mention these and reach themselves.
fn has_cycle(alloc: Global, lists: &[&[u32]], fact: u32) -> bool {
    match graph_from(alloc, lists) {
        Some(graph) => is_refused(alloc, graph.as_slice(), fact),
        None => false,
    }
}

// A fact mentions itself; two cycles; the one that is met first isn't the lowest; the first two facts only lead to one.
fn cycles_are_found(alloc: Global) -> bool {
    has_cycle(alloc, &[&[], &[1, 2]], 2)
        && has_cycle(alloc, &[&[], &[5], &[4], &[3], &[1, 2]], 2)
        && has_cycle(alloc, &[&[4], &[3], &[2], &[5], &[4]], 2)
        && has_cycle(alloc, &[&[2], &[4], &[], &[3, 5], &[4]], 4)
}

#[test]
fn the_first_cycle_is_that_of_the_lowest_fact(rt: HostRuntime) {
    assert!(rt; cycles_are_found(rt.alloc()));
}

fn mentions_others(alloc: Global, lists: &[&[u32]]) -> bool {
    match graph_from(alloc, lists) {
        Some(graph) => !mentions_facts(graph.as_slice()),
        None => false,
    }
}

#[test]
fn what_is_no_fact_is_told(rt: HostRuntime) {
    assert!(rt; mentions_others(rt.alloc(), &[&[2], &[3]]), "fact 3 of 2");
    assert!(rt; mentions_others(rt.alloc(), &[&[0], &[]]), "fact 0");
}
