// A pass over the graph that goes along mentions as far as it can, and ranks each fact once all that
// it mentions is ranked. The path has the facts that it is on the way from: each mentions the next.
// Each mention is passed once, so the pass takes time in proportion to them.
ghost use Rattle.std.specs.Prelude.{◌≡◌, ℕ, ◌+◌, ◌*◌, ◌<◌, ◌≤◌, ◌^◌, ◌++◌, ◌∷◌, [], length, map, drop, slice_index, true, false, IfOk, MatchBool, MatchOption};
ghost use Rattle.dict_order.specs.Graph.{Has, HasCycle, IsFact, MentionsFacts, graph_of, mentioned};
ghost use Rattle.dict_order.specs.Ranks.{AreRanks};
ghost use Rattle.dict_order.specs.Ranking.{AreRanked, Pass, StayMet, is_new as is_new_mark, is_ranked as is_ranked_mark, mark_of, passed_of, rank_at, rank_by, unmet};

use crate::graph::mentions;
use fact_values::NoMemory;
use std::alloc::Global;

// What is known of a fact.
#[derive(Clone, Copy)]
enum Mark {
    // Nothing yet.
    New,
    // It stands on the path, and the first of its mentions, so many, are ranked.
    Open(usize),
    // Its rank.
    Ranked(u32),
}

impl Mark {
    fn is_new(self) -> bool
        ensures { result ≡ is_new_mark self }
    {
        matches!(self, Mark::New)
    }

    fn is_ranked(self) -> bool
        ensures { result ≡ is_ranked_mark self }
    {
        matches!(self, Mark::Ranked(_))
    }

    // How many of its mentions are known to be ranked.
    fn passed(self) -> usize
        ensures { result ≡ passed_of self }
    {
        match self {
            Mark::Open(passed) => passed,
            Mark::New | Mark::Ranked(_) => 0,
        }
    }

    fn rank(self) -> u32
        ensures { result ≡ rank_at self }
    {
        match self {
            Mark::Ranked(rank) => rank,
            Mark::New | Mark::Open(_) => 0,
        }
    }
}

// The place of the first mention from this place on that isn't ranked, or their number.
fn first_unranked(mentions: &[u32], from: usize, marks: &[Mark]) -> usize
    requires within { (fact : ℕ) → Has mentions.now fact → fact < length marks.now }
    requires passed { AreRanked marks.now from mentions.now }
    ensures passed { AreRanked marks.now result mentions.now }
    ensures here { result < length mentions.now → is_ranked_mark (mark_of marks.now (slice_index mentions.now result))
        ≡ false }
    ensures most { result ≤ length mentions.now }
{
    for place in from..mentions.len() {
        if !marks[mentions[place] as usize].is_ranked() {
            return place;
        }
    }
    mentions.len()
}

// The rank of a fact that mentions these.
fn rank_above(mentions: &[u32], marks: &[Mark]) -> u32
    requires within { (fact : ℕ) → Has mentions.now fact → fact < length marks.now }
    requires small { rank_by marks.now mentions.now < 2 ^ 32 }
    ensures { result ≡ rank_by marks.now mentions.now }
{
    let mut rank = 0u32;
    for mention in mentions {
        let next = marks[*mention as usize].rank() + 1;
        rank = rank.max(next);
    }
    rank
}

// Goes on from the last fact of the path, which was taken off it: ranks it, or goes to a fact that it
// mentions. False where that one stands on the path, and so reaches itself.
fn step(
    graph: &[Vec<u32>],
    fact: u32,
    marks: &mut [Mark],
    path: &mut Vec<u32>,
) -> Result<bool, NoMemory>
    requires within { MentionsFacts (graph_of graph.now) }
    requires few { length graph.now < 2 ^ 32 }
    requires pass { Pass (graph_of graph.now) marks.old (path.old.items ++ fact ∷ []) }
    ensures pass { IfOk result (λ goes_on. MatchBool goes_on (Pass (graph_of graph.now) marks.new path.new.items)
        (HasCycle (graph_of graph.now))) }
    ensures met { IfOk result (λ goes_on. MatchBool goes_on (StayMet marks.old marks.new)
        (HasCycle (graph_of graph.now))) }
    ensures less { IfOk result (λ goes_on. MatchBool goes_on (2 * unmet marks.new + length path.new.items < 2 * unmet
        marks.old + length path.old.items + 1) (HasCycle (graph_of graph.now))) }
{
    let listed = mentions(graph, fact);
    let passed = first_unranked(listed, marks[fact as usize].passed(), marks);
    if passed == listed.len() {
        marks[fact as usize] = Mark::Ranked(rank_above(listed, marks));
        return Ok(true);
    }
    let mention = listed[passed];
    if !marks[mention as usize].is_new() {
        return Ok(false);
    }
    marks[fact as usize] = Mark::Open(passed);
    marks[mention as usize] = Mark::Open(0);
    path.push(fact)?;
    path.push(mention)?;
    Ok(true)
}

// Ranks the fact and all that it reaches. False where some fact reaches itself.
fn explore(
    alloc: Global,
    graph: &[Vec<u32>],
    start: u32,
    marks: &mut [Mark],
) -> Result<bool, NoMemory>
    requires within { MentionsFacts (graph_of graph.now) }
    requires few { length graph.now < 2 ^ 32 }
    requires there { IsFact (graph_of graph.now) start }
    requires pass { Pass (graph_of graph.now) marks.old [] }
    ensures pass { IfOk result (λ goes_on. MatchBool goes_on (Pass (graph_of graph.now) marks.new [])
        (HasCycle (graph_of graph.now))) }
    ensures met { IfOk result (λ goes_on. MatchBool goes_on (StayMet marks.old marks.new)
        (HasCycle (graph_of graph.now))) }
    ensures start { IfOk result (λ goes_on. MatchBool goes_on (is_new_mark (mark_of marks.new start) ≡ false)
        (HasCycle (graph_of graph.now))) }
{
    if !marks[start as usize].is_new() {
        return Ok(true);
    }
    marks[start as usize] = Mark::Open(0);
    let mut path = Vec::new(alloc);
    path.push(start)?;
    while let Some(fact) = path.pop() {
        if !step(graph, fact, marks, &mut path)? {
            return Ok(false);
        }
    }
    Ok(true)
}

// The rank of each fact, by the marks. Place 0 stands for no fact.
fn ranks_of(alloc: Global, marks: &[Mark]) -> Result<Vec<u32>, NoMemory>
    requires { 0 < length marks.now }
    ensures { IfOk result (λ ranks. ranks.items ≡ map rank_at (drop 1 marks.now)) }
{
    Ok(marks[1..].iter().map(|mark| mark.rank()).collect(alloc)?)
}

/// The rank of each fact. None where some fact reaches itself.
pub fn rank_all(alloc: Global, graph: &[Vec<u32>]) -> Result<Option<Vec<u32>>, NoMemory>
    requires within { MentionsFacts (graph_of graph.now) }
    requires few { length graph.now < 2 ^ 32 }
    ensures { IfOk result (λ ranks. MatchOption ranks (HasCycle (graph_of graph.now))
        (λ list. AreRanks (graph_of graph.now) list.items)) }
{
    let mut marks = vec![in alloc; Mark::New; graph.len() + 1]?;
    for place in 0..graph.len() {
        if !explore(alloc, graph, place as u32 + 1, marks.as_mut_slice())? {
            return Ok(None);
        }
    }
    let ranks = ranks_of(alloc, marks.as_slice())?;
    Ok(Some(ranks))
}
