// What use paths and constants stand for in nodes: facts by their numbers, and values.
ghost use Rattle.std.specs.Prelude.{◌≡◌, IfOk, option_and_then};
ghost use Rattle.dict_source.specs.Dictionary.{dictionary_view};
ghost use Rattle.dict_source.specs.Mentions.{condition_base};
ghost use Rattle.dict_source.specs.Tree.{read};
ghost use Rattle.dict_source.specs.View.{literal_of, use_view};
ghost use Rattle.node_types.specs.StatedTypes.{type_at as type_of_fact};
ghost use Rattle.dict_meaning.specs.Dependencies.{constant_value as value_of_constant};
ghost use Rattle.node_eval.specs.View.{view};
ghost use Rattle.node_compile.specs.Compiling.{number as number_of, read_of, reading, resolved_path, resolved_use, sum_read};

use dict_source::{Constant, DictSource, PathUse, ReadOp, Targets};
use fact_paths::UsePath;
use fact_values::{FactType, NoMemory, Value};
use node_eval::{Node, NodeRead, ResolvedPath};
use node_types::{constant_value, type_at};
use std::alloc::Global;
use value_text::EnumLists;

/// The value of a constant. A text that spells no value counts as false.
pub fn constant(alloc: Global, enums: &EnumLists, constant: &Constant) -> Result<Value, NoMemory>
    ensures { IfOk result (λ v. v ≡ value_of_constant enums.now (literal_of constant.now)) }
{
    match constant_value(alloc, enums, constant)? {
        Some(value) => Ok(value),
        None => Ok(Value::Boolean(false)),
    }
}

fn number(target: Option<u32>) -> u32
    ensures { result ≡ number_of target }
{
    target.unwrap_or(0)
}

// The path's form, with the numbers of its targets.
fn resolve_path(path: &UsePath, targets: Targets) -> ResolvedPath
    ensures { result ≡ resolved_path path.now targets }
{
    let first = number(targets.first);
    let second = number(targets.second);
    match path {
        UsePath::Global(_) => ResolvedPath::Global(first),
        UsePath::Sibling(_) => ResolvedPath::Same(first),
        UsePath::Inner(_) => ResolvedPath::Inner(first),
        UsePath::Each(..) => ResolvedPath::Each(first, second),
        UsePath::Through(..) => ResolvedPath::Through(first, second),
        UsePath::SiblingThrough(..) => ResolvedPath::SameThrough(first, second),
    }
}

/// The path of a use in this fact, resolved under a condition over the base, or with the base 0
/// outside of conditions.
pub fn resolve_use(source: &DictSource, fact: u32, base: u32, used: &PathUse) -> ResolvedPath
    ensures { result ≡ resolved_use (dictionary_view source.now) fact base (use_view used.now).path }
{
    match used {
        PathUse::Spelled(path) => resolve_path(path, source.targets(fact, base, path)),
        PathUse::Misspelled(_) => ResolvedPath::Global(0),
    }
}

fn field_type(source: &DictSource, field: Option<u32>) -> Option<FactType>
    ensures { result ≡ option_and_then (type_of_fact (dictionary_view source.now)) field }
{
    type_at(source, field?)
}

// A sum by the type of its fields.
fn sum_of_fields(of: FactType) -> NodeRead
    ensures { result ≡ sum_read of }
{
    match of {
        FactType::Dollar => NodeRead::SumDollar,
        _ => NodeRead::SumInt,
    }
}

fn read_of_targets(source: &DictSource, targets: Targets, op: ReadOp) -> NodeRead
    ensures { result ≡ read_of (dictionary_view source.now) targets op }
{
    match op {
        ReadOp::Dependency => NodeRead::Dependency,
        ReadOp::IsComplete => NodeRead::IsComplete,
        ReadOp::CollectionSize => NodeRead::CollectionSize,
        ReadOp::CollectionSum => {
            sum_of_fields(field_type(source, targets.second).unwrap_or(FactType::Int))
        }
        ReadOp::Count => NodeRead::Count,
    }
}

/// The node that reads a path.
#[tactic(auto, using(node_eval::proofs::Views::views))]
pub fn read_path(source: &DictSource, fact: u32, base: u32, op: ReadOp, used: &PathUse) -> Node
    ensures { view result ≡ read (reading (dictionary_view source.now) fact base op (use_view used.now).path) }
{
    match used {
        PathUse::Spelled(path) => {
            let targets = source.targets(fact, base, path);
            let op = read_of_targets(source, targets, op);
            Node::Read(op, resolve_path(path, targets))
        }
        PathUse::Misspelled(_) => Node::Read(NodeRead::Dependency, ResolvedPath::Global(0)),
    }
}

/// The base of the condition of a Filter or a Find with this path.
pub fn base_under(source: &DictSource, fact: u32, base: u32, used: &PathUse) -> u32
    ensures { result ≡ condition_base (dictionary_view source.now) fact base (use_view used.now).path }
{
    match used {
        PathUse::Spelled(path) => source.condition_base(fact, base, path),
        PathUse::Misspelled(_) => 0,
    }
}
