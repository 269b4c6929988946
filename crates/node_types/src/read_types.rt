// The types of nodes that read a path.
ghost use Rattle.std.specs.Prelude.{◌≡◌};
ghost use Rattle.dict_source.specs.Dictionary.{dictionary_view};
ghost use Rattle.dict_source.specs.Mentions.{condition_base};
ghost use Rattle.dict_source.specs.View.{use_view};
ghost use Rattle.node_types.specs.FactTyping.{known as known_base, last_target as last_of, path_type as type_of_path, read_type as type_of_read, target_type as type_of_target};

use crate::stated_types::type_at;
use dict_source::{DictSource, PathUse, ReadOp, Targets};
use fact_paths::UsePath;
use fact_values::FactType;

fn last_target(path: &UsePath, targets: Targets) -> Option<u32>
    ensures { result ≡ last_of path.now targets }
{
    match path {
        UsePath::Global(_) => targets.first,
        UsePath::Sibling(_) => targets.first,
        UsePath::Inner(_) => targets.first,
        UsePath::Each(..) => targets.second,
        UsePath::Through(..) => targets.second,
        UsePath::SiblingThrough(..) => targets.second,
    }
}

fn read_type(op: ReadOp, of: Option<FactType>) -> Option<FactType>
    ensures { result ≡ type_of_read op of }
{
    match (op, of) {
        (ReadOp::Dependency, _) => of,
        (ReadOp::IsComplete, _) => Some(FactType::Boolean),
        (ReadOp::CollectionSize, Some(FactType::Collection(_))) => Some(FactType::Int),
        (ReadOp::CollectionSum, Some(FactType::Int | FactType::Dollar)) => of,
        (ReadOp::Count, Some(FactType::Boolean)) => Some(FactType::Int),
        _ => None,
    }
}

fn target_type(source: &DictSource, op: ReadOp, target: Option<u32>) -> Option<FactType>
    ensures { result ≡ type_of_target (dictionary_view source.now) op target }
{
    match target {
        None => None,
        Some(number) => read_type(op, type_at(source, number)),
    }
}

/// The type of a node that reads the path, in this fact, under a condition over the base or with the base 0.
pub fn path_type(
    source: &DictSource,
    fact: u32,
    base: u32,
    op: ReadOp,
    used: &PathUse,
) -> Option<FactType>
    ensures { result ≡ type_of_path (dictionary_view source.now) fact base op (use_view used.now).path }
{
    match used {
        PathUse::Spelled(path) => target_type(
            source,
            op,
            last_target(path, source.targets(fact, base, path)),
        ),
        PathUse::Misspelled(_) => None,
    }
}

fn known(number: u32) -> Option<u32>
    ensures { result ≡ known_base number }
{
    if number == 0 { None } else { Some(number) }
}

/// The base of the collection that the path names, where it is known.
pub fn picked_base(source: &DictSource, fact: u32, base: u32, used: &PathUse) -> Option<u32>
    ensures { result ≡ known_base (condition_base (dictionary_view source.now) fact base (use_view used.now).path) }
{
    match used {
        PathUse::Spelled(path) => known(source.condition_base(fact, base, path)),
        PathUse::Misspelled(_) => None,
    }
}
