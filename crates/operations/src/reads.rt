// Nodes that read facts: members, sizes, tests of completeness, and ways through items.
ghost use Rattle.std.specs.Prelude.{◌≡◌};
ghost use Rattle.evaluation.specs.Operations.{size_value};
ghost use Rattle.evaluation.specs.Reads.{collection_size, complete_test};
ghost use Rattle.fact_values.specs.Members.{IsMemberList};
ghost use Rattle.operations.specs.ItemSteps.{item_step, value_step};
ghost use Rattle.three_state.specs.Results.{is_complete, members_in, members_of};

use fact_values::{Value, ValueFault, Whole};
use three_state::{Res, finish};

/// The result of an IsComplete, from what a Dependency would give.
pub fn complete_test(res: &Res) -> Res
    ensures { result ≡ complete_test res.now }
{
    Res::Complete(Value::Boolean(is_complete(res)))
}

fn is_complete(res: &Res) -> bool
    ensures { result ≡ is_complete res.now }
{
    match res {
        Res::Complete(_) => true,
        _ => false,
    }
}

/// The result of a CollectionSize, from the collection.
pub fn size(source: &Res) -> Res
    ensures { result ≡ collection_size source.now }
{
    match source {
        Res::Complete(v) => finish(true, size_value(v)),
        Res::Placeholder(v) => finish(false, size_value(v)),
        Res::Incomplete => Res::Incomplete,
        Res::Fault(fault) => Res::Fault(*fault),
    }
}

fn size_value(value: &Value) -> Result<Value, ValueFault>
    ensures { result ≡ size_value value.now }
{
    let size = members_in(value).len();
    Ok(Value::Int(Whole::new(size as i64).unwrap()))
}

/// The members of a collection, and none of a result without a value.
pub fn members(source: &Res) -> &[u32]
    ensures value { result.now ≡ members_of source.now }
    ensures members { IsMemberList result.now }
{
    match source {
        Res::Complete(v) => members_in(v),
        Res::Placeholder(v) => members_in(v),
        Res::Incomplete => &[],
        Res::Fault(_) => &[],
    }
}

/// The members of a list, and none of another value.
fn members_in(value: &Value) -> &[u32]
    ensures value { result.now ≡ members_in value.now }
    ensures members { IsMemberList result.now }
{
    match value {
        Value::Members(list) => list.as_slice(),
        _ => &[],
    }
}

/// Where a Dependency through an item goes.
#[derive(Drop)]
pub enum ItemStep {
    /// To the field of this member. The flag says that the item is complete.
    Member(u32, bool),
    /// To no field: the result.
    End(Res),
}

/// Where a Dependency goes through this item.
#[tactic(auto, unfolding(crate::specs::ItemSteps::item_step))]
pub fn item_step(item: &Res) -> ItemStep
    ensures { result ≡ item_step item.now }
{
    match item {
        Res::Complete(v) => value_step(true, v),
        Res::Placeholder(v) => value_step(false, v),
        Res::Incomplete => ItemStep::End(Res::Incomplete),
        Res::Fault(fault) => ItemStep::End(Res::Fault(*fault)),
    }
}

fn value_step(complete: bool, value: &Value) -> ItemStep
    ensures { result ≡ value_step complete value.now }
{
    match value {
        Value::Item(member) => ItemStep::Member(*member, complete),
        _ => ItemStep::End(Res::Incomplete),
    }
}
