// Accepting a dictionary, or naming its first fault.
ghost use Rattle.std.specs.Prelude.{◌≡◌, IfErr, IfOk};
ghost use Rattle.text_checks.specs.Tables.{check_names, named_checks};
ghost use Rattle.dict_source.specs.Dictionary.{dictionary_view};
ghost use Rattle.dict_types.specs.DictFaults.{IsTypedDictionary};
ghost use Rattle.dict_order.specs.MentionGraph.{mention_graph};
ghost use Rattle.dict_order.specs.Ranks.{AreRanks};
ghost use Rattle.dict_meaning.specs.Accepted.{IsAccepted};
ghost use Rattle.dictionary.specs.AcceptedParts.{accepted};
ghost use Rattle.dictionary.specs.Faults.{AreAccepted, IsCycleOf, IsFault, IsFaultOf, Refuses};

use crate::dictionary::Dictionary;
use crate::fault::{DictFault, fault_of_trees, fault_of_types};
use dict_order::{OrderFault, order};
use dict_source::DictSource;
use dict_tree::read;
use dict_types::{Typed, check};
use std::alloc::Global;
use text_checks::CheckTable;

// The types, constants and limits, or the first fault of paths, checks, types and limits.
fn type_source(alloc: Global, source: &DictSource, checks: &CheckTable) -> Result<Typed, DictFault>
    ensures typed { IfOk result (IsTypedDictionary (dictionary_view source.now) (check_names checks.now)) }
    ensures refused { IfErr result (Refuses (IsFaultOf (dictionary_view source.now) (check_names checks.now))) }
{
    match check(alloc, source, checks) {
        Ok(typed) => Ok(typed),
        Err(fault) => Err(fault_of_types(fault)),
    }
}

// The ranks, or the first fact that reaches itself.
fn rank_source(alloc: Global, source: &DictSource) -> Result<Vec<u32>, DictFault>
    ensures ranked { IfOk result (λ ranks. AreRanks (mention_graph (dictionary_view source.now)) ranks.items) }
    ensures refused { IfErr result (Refuses (IsCycleOf (dictionary_view source.now))) }
{
    match order(alloc, source) {
        Ok(ranks) => Ok(ranks),
        Err(OrderFault::Cycle(fact)) => Err(DictFault::Cycle(fact)),
        Err(OrderFault::NoMemory) => Err(DictFault::NoMemory),
    }
}

/// The dictionary of this source, or its first fault: paths and checks first, kind by kind, then types, then limits, then
/// cycles; of one kind the first fact's, and of a fact its first node's.
pub fn of_source(
    alloc: Global,
    source: DictSource,
    checks: &CheckTable,
) -> Result<Dictionary, DictFault>
    ensures is_accepted { IfOk result (λ d. IsAccepted (check_names checks.now) (accepted d)) }
    ensures source { IfOk result (λ d. d.source ≡ source) }
    ensures checks { IfOk result (λ d. d.checks ≡ named_checks checks.now) }
    ensures refused { IfErr result (Refuses (IsFaultOf (dictionary_view source) (check_names checks.now))) }
{
    // That the source is valid is what its facts say.
    let _ = source.facts();
    match type_source(alloc, &source, checks) {
        Ok(typed) => match rank_source(alloc, &source) {
            Ok(ranks) => Dictionary::keep(alloc, source, typed, ranks, checks),
            Err(fault) => {
                drop(source);
                drop(typed);
                Err(fault)
            }
        },
        Err(fault) => {
            drop(source);
            Err(fault)
        }
    }
}

/// The dictionary that the bytes spell, or its first fault: the bytes and their shape first, then the limits, then what
/// [`of_source`] names.
pub fn accept(alloc: Global, bytes: &[u8], checks: &CheckTable) -> Result<Dictionary, DictFault>
    ensures is_accepted { IfOk result (λ d. AreAccepted bytes.now (check_names checks.now) (accepted d)) }
    ensures checks { IfOk result (λ d. d.checks ≡ named_checks checks.now) }
    ensures refused { IfErr result (Refuses (IsFault bytes.now (check_names checks.now))) }
{
    match read(alloc, bytes) {
        Ok(source) => of_source(alloc, source, checks),
        Err(fault) => Err(fault_of_trees(fault)),
    }
}
