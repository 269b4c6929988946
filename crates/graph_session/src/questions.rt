// Questions about a slot, which change nothing.
ghost use Rattle.std.specs.Prelude.{◌≡◌};
ghost use Rattle.answers.specs.Meaning.{answered};
ghost use Rattle.graph_session.specs.Naming.{slot_of};
ghost use Rattle.graph_session.specs.Refusals.{decided, first_of, slot_refusals};
ghost use Rattle.graph_session.specs.Rules.{rules, tree_of};
ghost use Rattle.graph_session.specs.declared.reply.Reply.TheVariants.{Answer, FinalAsked, MissingAsked, UnwatchAsked, WatchAsked};

use crate::naming::find_slot;
use crate::reply::{Refusal, Reply};
use answers::Answers;
use dictionary::Dictionary;
use fact_paths::SlotPath;

/// Asks for the slot's result.
#[inline(always)]
pub fn ask_answer(dict: &Dictionary, answers: &Answers, path: &SlotPath) -> Result<Reply, Refusal>
    ensures { result ≡ decided (first_of (slot_refusals (rules dict.now) (answered answers.now) path.now))
        (Answer (slot_of (tree_of (rules dict.now)) path.now)) }
{
    let slot = find_slot(dict, answers, path)?;
    Ok(Reply::Answer(slot))
}

/// Asks whether the slot's result is final.
#[inline(always)]
pub fn ask_final(dict: &Dictionary, answers: &Answers, path: &SlotPath) -> Result<Reply, Refusal>
    ensures { result ≡ decided (first_of (slot_refusals (rules dict.now) (answered answers.now) path.now))
        (FinalAsked (slot_of (tree_of (rules dict.now)) path.now)) }
{
    let slot = find_slot(dict, answers, path)?;
    Ok(Reply::FinalAsked(slot))
}

/// Asks for the slot's missing answers.
pub fn ask_missing(dict: &Dictionary, answers: &Answers, path: &SlotPath) -> Result<Reply, Refusal>
    ensures { result ≡ decided (first_of (slot_refusals (rules dict.now) (answered answers.now) path.now))
        (MissingAsked (slot_of (tree_of (rules dict.now)) path.now)) }
{
    let slot = find_slot(dict, answers, path)?;
    Ok(Reply::MissingAsked(slot))
}

/// Asks for a watch on the slot.
pub fn ask_watch(dict: &Dictionary, answers: &Answers, path: &SlotPath) -> Result<Reply, Refusal>
    ensures { result ≡ decided (first_of (slot_refusals (rules dict.now) (answered answers.now) path.now))
        (WatchAsked (slot_of (tree_of (rules dict.now)) path.now)) }
{
    let slot = find_slot(dict, answers, path)?;
    Ok(Reply::WatchAsked(slot))
}

/// Asks for the end of a watch on the slot.
pub fn ask_unwatch(dict: &Dictionary, answers: &Answers, path: &SlotPath) -> Result<Reply, Refusal>
    ensures { result ≡ decided (first_of (slot_refusals (rules dict.now) (answered answers.now) path.now))
        (UnwatchAsked (slot_of (tree_of (rules dict.now)) path.now)) }
{
    let slot = find_slot(dict, answers, path)?;
    Ok(Reply::UnwatchAsked(slot))
}
