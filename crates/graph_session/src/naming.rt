// The slot that a path names.
ghost use Rattle.std.specs.Prelude.{◌≡◌, IfOk, IfSome, IsTrue, Some};
ghost use Rattle.answers.specs.Answered.{list_of};
ghost use Rattle.answers.specs.Meaning.{answered};
ghost use Rattle.dict_source.specs.Finding.{IsNumber};
ghost use Rattle.dict_meaning.specs.Fits.{AnswersFit};
ghost use Rattle.dict_meaning.specs.Slots.{is_member as among_members, stands};
ghost use Rattle.graph_session.specs.Naming.{lacks_member as lacks, member_of as member_named, named_fact};
ghost use Rattle.graph_session.specs.Refusals.{slot_found};
ghost use Rattle.graph_session.specs.Rules.{rules, tree_of};

use crate::reply::Refusal;
use answers::Answers;
use dictionary::Dictionary;
use fact_paths::SlotPath;
use fact_values::Slot;

// The number of the path's fact.
fn find_fact(dict: &Dictionary, path: &SlotPath) -> Option<u32>
    ensures { result ≡ named_fact (tree_of (rules dict.now)) path.now }
{
    match path {
        SlotPath::Global(name) => dict.source().find_global(name),
        SlotPath::Member(collection, _, name) => dict.source().find_member(collection, name),
    }
}

/// Whether the member is one of the collection.
#[inline(never)]
pub fn is_member(answers: &Answers, list: u32, member: u32) -> bool
    ensures { result ≡ among_members (answered answers.now) list member }
{
    match answers.members(list) {
        None => false,
        Some(members) => members.contains(&member),
    }
}

// Whether the path has a member that isn't in its collection; it is the path of this fact.
#[inline(always)]
fn lacks_member(dict: &Dictionary, answers: &Answers, path: &SlotPath, fact: u32) -> bool
    requires { named_fact (tree_of (rules dict.now)) path.now ≡ Some fact }
    ensures { result ≡ lacks (tree_of (rules dict.now)) (answered answers.now) path.now }
{
    match path {
        SlotPath::Global(_) => false,
        SlotPath::Member(_, member, _) => !is_member(answers, dict.home(fact), *member),
    }
}

fn member_of(path: &SlotPath) -> u32
    ensures { result ≡ member_named path.now }
{
    match path {
        SlotPath::Global(_) => 0,
        SlotPath::Member(_, member, _) => *member,
    }
}

/// The slot that the path names, where it stands.
#[inline(always)]
pub fn find_slot(dict: &Dictionary, answers: &Answers, path: &SlotPath) -> Result<Slot, Refusal>
    ensures { result ≡ slot_found (rules dict.now) (answered answers.now) path.now }
{
    let Some(fact) = find_fact(dict, path) else {
        return Err(Refusal::UnknownFact);
    };
    if lacks_member(dict, answers, path, fact) {
        return Err(Refusal::NoMember);
    }
    Ok(Slot {
        fact,
        member: member_of(path),
    })
}
