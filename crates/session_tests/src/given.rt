//! What a test of given answers begins with: a collection with two members.
ghost use Rattle.std.specs.Prelude.{◌≡◌, [], ◌∷◌, IfSome, IsTrue};
ghost use Rattle.answers.specs.GivenLists.{IsOfLists};
ghost use Rattle.answers.specs.Meaning.{answered};
ghost use Rattle.answers.specs.WellFormed.{FromOne, WellFormed};
ghost use Rattle.dict_source.specs.Dictionary.{is_collection};
ghost use Rattle.dict_source.specs.Facts.{stated_view};
ghost use Rattle.dictionary.specs.AcceptedParts.{accepted};
ghost use Rattle.dict_meaning.specs.Fits.{AnswersFit, is_list as is_list_fact};

use answers::Answers;
use dict_source::TypeText;
use dictionary::Dictionary;
use fact_values::Members;
use std::alloc::Global;

/// A collection and the number of its members.
pub const SIZED: &str =
    r#"{"version":"1","facts":[{"path":"/c","writable":"Collection"},{"path":"/n","derived":"Int","is":["CollectionSize","/c"]}]}"#;

const LIST: u32 = 1;

// The collection has the members 3 and 1, and the next member is 4.
#[tactic(auto, using(crate::proofs::GivenLists::one_given))]
fn given(alloc: Global) -> Option<Answers>
    ensures lists { IfSome result (λ a. IsOfLists ((1, 3 ∷ 1 ∷ []) ∷ []) 4 (answered a)) }
    ensures well { IfSome result (λ a. WellFormed (answered a)) }
    ensures from_one { IfSome result (λ a. FromOne (answered a)) }
{
    let numbers = vec![in alloc; 3, 1].ok()?;
    let members = Members::new(numbers)?;
    let lists = vec![in alloc; (LIST, members)].ok()?;
    Answers::with_lists(alloc, lists, 4).ok()
}

fn is_list_type(stated: &TypeText) -> bool
    ensures { result ≡ is_collection (stated_view stated.now) }
{
    match stated {
        TypeText::WritableList => true,
        _ => false,
    }
}

// Whether the first fact is a Writable collection.
fn begins_with_a_list(dict: &Dictionary) -> bool
    ensures { IsTrue result → IsTrue (is_list_fact (accepted dict.now).tree 1) }
{
    match dict.source().fact(LIST) {
        None => false,
        Some(fact) => is_list_type(&fact.stated),
    }
}

/// The collection with which the dictionary begins has the members 3 and 1, and the next member is 4.
pub fn given_of(alloc: Global, dict: &Dictionary) -> Option<Answers>
    ensures { IfSome result (λ a. AnswersFit (accepted dict.now).tree (answered a)) }
{
    if begins_with_a_list(dict) {
        given(alloc)
    } else {
        None
    }
}
