// What is computed of a dictionary once, when it is accepted.
ghost use Rattle.std.specs.Prelude.{◌≤◌, length, IfOk};
ghost use Rattle.dict_source.specs.Dictionary.{dictionary_view};
ghost use Rattle.dict_order.specs.MentionGraph.{mention_graph};
ghost use Rattle.dict_order.specs.Ranks.{AreRanks};
ghost use Rattle.dictionary.specs.Keeping.{IsPrecomputed};

use crate::by_rank::by_rank;
use crate::homes::homes_of;
use crate::kept_check::name_checks;
use crate::sizes::count_nodes;
use crate::steady::steady_facts;
use dict_source::DictSource;
use fact_values::NoMemory;
use std::alloc::Global;

/// What is computed of a dictionary once, when it is accepted.
#[derive(Drop)]
pub struct Precomputed {
    /// Of each fact, the number of its collection, and 0 for a global fact.
    pub homes: Vec<u32>,
    /// How many nodes all facts have.
    pub nodes: u32,
    /// Whether some fact has a check.
    pub checked: bool,
    /// Each fact once, by rising rank, and those of one rank by rising number.
    pub by_rank: Vec<u32>,
    /// Whether each fact is steady.
    pub steady: Vec<bool>,
}

/// Computes it of a dictionary, of whose facts these are the ranks.
pub fn precompute(
    alloc: Global,
    source: &DictSource,
    ranks: &[u32],
) -> Result<Precomputed, NoMemory>
    requires { AreRanks (mention_graph (dictionary_view source.now)) ranks.now }
    ensures { IfOk result (IsPrecomputed (dictionary_view source.now) ranks.now) }
{
    let homes = homes_of(alloc, source)?;
    let nodes = count_nodes(source.facts());
    let checked = name_checks(source.facts());
    let by_rank = by_rank(alloc, ranks)?;
    let steady = steady_facts(alloc, source, by_rank.as_slice())?;
    Ok(Precomputed {
        homes,
        nodes,
        checked,
        by_rank,
        steady,
    })
}
