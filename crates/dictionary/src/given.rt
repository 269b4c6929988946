// The result of a writable fact at a slot, from its answer or from its list of members.
ghost use Rattle.std.specs.Prelude.{◌≡◌, List, ℕ, option_copied, IfOk, Some};
ghost use Rattle.answers.specs.Meaning.{answered};
ghost use Rattle.answers.specs.WellFormed.{FromOne, WellFormed};
ghost use Rattle.dict_source.specs.Facts.{stated_view};
ghost use Rattle.fact_values.specs.Members.{IsMemberList};
ghost use Rattle.dict_meaning.specs.Plain.{answer_result, given_value, open_list};

use answers::Answers;
use dict_source::TypeText;
use fact_values::{Members, NoMemory, Slot, Value};
use std::alloc::Global;
use three_state::Res;

// An answer, or none.
fn answer_result(alloc: Global, answer: Option<&Value>) -> Result<Res, NoMemory>
    ensures { IfOk result (λ r. r ≡ answer_result (option_copied answer.entry)) }
{
    match answer {
        None => Ok(Res::Incomplete),
        Some(value) => Ok(Res::Complete(value.copy(alloc)?)),
    }
}

// The members of an open collection, or none.
fn list_result(alloc: Global, list: Option<&[u32]>) -> Result<Res, NoMemory>
    requires { (ms : List ℕ) → option_copied list ≡ Some ms → IsMemberList ms }
    ensures { IfOk result (λ r. r ≡ answer_result (open_list (option_copied list.entry))) }
{
    match list {
        None => Ok(Res::Incomplete),
        Some(list) => {
            let members = Members::new(Vec::from_slice(alloc, list)?).unwrap();
            Ok(Res::Complete(Value::Members(members)))
        }
    }
}

/// What a person gave to the slot of a writable fact that states this type: the answer, or the members of the open collection,
/// and Incomplete where there is none.
pub fn given_result(
    alloc: Global,
    answers: &Answers,
    slot: Slot,
    stated: &TypeText,
) -> Result<Res, NoMemory>
    requires well { WellFormed (answered answers.now) }
    requires from_one { FromOne (answered answers.now) }
    ensures { IfOk result (λ r. r ≡ answer_result (given_value (stated_view stated.now) (answered answers.now) slot)) }
{
    match stated {
        TypeText::WritableList => list_result(alloc, answers.members(slot.fact)),
        TypeText::Scalar(_) => answer_result(alloc, answers.value(slot)),
        TypeText::EnumOf(_) => answer_result(alloc, answers.value(slot)),
        TypeText::ListOf(_) => answer_result(alloc, answers.value(slot)),
        TypeText::ItemOf(_) => answer_result(alloc, answers.value(slot)),
    }
}
