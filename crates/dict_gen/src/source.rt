// Makes the source of a load's dictionary.
ghost use Rattle.std.specs.Prelude.{◌≡◌, ◌<◌, ◌≤◌, suc, zero, List, [], ◌∷◌, codes, string_bytes, IfOk, IsTrue, OnOk};
ghost use Rattle.fact_values.specs.declared.fact_type.FactType.TheVariants.{Int};
ghost use Rattle.dict_source.specs.Dictionary.{dictionary_view, with_fact};
ghost use Rattle.dict_source.specs.Facts.{scalar};
ghost use Rattle.written_facts.specs.Figures.{Named};
ghost use Rattle.written_facts.specs.WrittenFacts.{derived, written_views};
ghost use Rattle.written_facts.specs.Taking.{takes};
ghost use Rattle.dict_gen.specs.Chain.{chain, member_facts, one_more, sum_path as path_of_sum};

use dict_source::DictSource;
use dict_source::ManyOp::Add;
use dict_source::ReadOp::{CollectionSum, Dependency};
use fact_values::NoMemory;
use std::alloc::Global;
use value_text::EnumLists;
use written_facts::Form::{Const, Many, Read};
use written_facts::WrittenFact::{Asked, Derived};
use written_facts::{Fixed, Kind, WrittenFact, push_facts};

// What the members of `/c` have.
const MEMBER_FACTS: &'static [WrittenFact<'static>] = &[
    Asked("/c", Kind::Collection),
    Asked("/c/*/v", Kind::Int),
    Derived(
        "/c/*/w",
        Kind::Int,
        Many(Add, &[Read(Dependency, "../v"), Const(Fixed::Int("1"))]),
    ),
];

fn member_rows() -> &'static [WrittenFact<'static>]
    ensures { (fs : List Named) → written_views fs result.now ≡ member_facts }
{
    MEMBER_FACTS
}

// The text of the path `/sk`.
fn sum_path(alloc: Global, k: u32) -> Result<String, NoMemory>
    ensures { IfOk result (λ path. string_bytes path ≡ path_of_sum k) }
{
    Ok(format!(in alloc; "/s{k}")?)
}

// Appends a fact that is one more than another.
fn push_one_more<'a>(
    alloc: Global,
    path: &'a str,
    other: &'a str,
    source: &mut DictSource,
) -> Result<(), NoMemory>
    requires { IsTrue (takes (dictionary_view source.old) (derived path.now (scalar Int) (one_more other.now))) }
    ensures { OnOk result (dictionary_view source.new ≡ with_fact (dictionary_view source.old)
        (derived path.now (scalar Int) (one_more other.now))) }
{
    let operands = [Read(Dependency, other), Const(Fixed::Int("1"))];
    let rows = [Derived(path, Kind::Int, Many(Add, &operands))];
    push_facts(alloc, &[], &rows, source)
}

// Appends the first sum.
fn push_first(alloc: Global, source: &mut DictSource) -> Result<(), NoMemory>
    requires { dictionary_view source.old ≡ chain 0 }
    ensures { OnOk result (dictionary_view source.new ≡ chain 1) }
{
    let path = sum_path(alloc, 1)?;
    let rows = [Derived(path.as_str(), Kind::Int, Read(CollectionSum, "/c/*/w"))];
    push_facts(alloc, &[], &rows, source)
}

// Appends the sum behind so many.
fn push_sum(alloc: Global, before: u32, source: &mut DictSource) -> Result<(), NoMemory>
    requires most { before < 1000 }
    requires so_far { dictionary_view source.old ≡ chain before }
    ensures { OnOk result (dictionary_view source.new ≡ chain (suc before)) }
{
    if before == 0 {
        return push_first(alloc, source);
    }
    let path = sum_path(alloc, before + 1)?;
    let other = sum_path(alloc, before)?;
    push_one_more(alloc, path.as_str(), other.as_str(), source)
}

// What the members of `/c` have, without sums.
fn start(alloc: Global) -> Result<DictSource, NoMemory>
    ensures { IfOk result (λ source. dictionary_view source ≡ chain 0) }
{
    let mut source = DictSource::new(alloc, EnumLists::new(alloc));
    match push_facts(alloc, &[], member_rows(), &mut source) {
        Ok(()) => Ok(source),
        Err(NoMemory) => {
            drop(source);
            Err(NoMemory)
        }
    }
}

/// The source of the dictionary of `n` sums.
pub fn source(alloc: Global, n: u32) -> Result<DictSource, NoMemory>
    requires { n ≤ 1000 }
    ensures { IfOk result (λ source. dictionary_view source ≡ chain n) }
{
    let mut source = start(alloc)?;
    for before in 0..n {
        match push_sum(alloc, before, &mut source) {
            Ok(()) => (),
            Err(NoMemory) => {
                drop(source);
                return Err(NoMemory);
            }
        }
    }
    Ok(source)
}
