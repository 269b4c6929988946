// The collection that each fact belongs to.
ghost use Rattle.std.specs.Prelude.{◌≡◌, IfOk, option_and_then, unwrap_or};
ghost use Rattle.dict_source.specs.Dictionary.{dictionary_view};
ghost use Rattle.dict_source.specs.Facts.{fact_view};
ghost use Rattle.dict_source.specs.Targets.{find_global, member_collection};
ghost use Rattle.dict_meaning.specs.Homes.{fact_home, homes};

use dict_source::{DictSource, FactSource};
use fact_paths::FactPath;
use fact_values::NoMemory;
use std::alloc::Global;

// The collection of a fact with this path: 0 for a global one.
fn home_of_path(source: &DictSource, path: &FactPath) -> u32
    ensures { result ≡ unwrap_or (option_and_then (find_global (dictionary_view source.now))
        (member_collection path.now)) 0 }
{
    match path {
        FactPath::Global(_) => 0,
        FactPath::Member(collection, _) => source.find_global(collection).unwrap_or(0),
    }
}

fn home_of(source: &DictSource, fact: &FactSource) -> u32
    ensures { result ≡ fact_home (dictionary_view source.now) (fact_view fact.now) }
{
    match &fact.path {
        None => 0,
        Some(path) => home_of_path(source, path),
    }
}

/// Of each fact, in order, the number of its collection: 0 for a global fact.
pub fn homes_of(alloc: Global, source: &DictSource) -> Result<Vec<u32>, NoMemory>
    ensures { IfOk result (λ list. list.items ≡ homes (dictionary_view source.now)) }
{
    let mut list = Vec::new(alloc);
    for fact in source.facts() {
        list.push(home_of(source, fact))?;
    }
    Ok(list)
}
