// Gives each slot of a global fact a place in the queue, in the order of the ranks.
ghost use Rattle.std.specs.Prelude.{All};
ghost use Rattle.dict_source.specs.Finding.{IsNumber};
ghost use Rattle.dictionary.specs.AcceptedParts.{accepted};

use dictionary::Dictionary;
use dirty_slots::{DirtySlot, Places};
use fact_values::NoMemory;
use std::alloc::Global;

/// A place for each slot of a global fact, by its rank. Without one it would wait all the same, in a set.
pub fn global_places(alloc: Global, dict: &Dictionary) -> Result<Places, NoMemory> {
    let facts = dict.by_rank();
    let _source = dict.source();
    let mut places = Places::new(alloc, facts.len())?;
    add_facts(&mut places, dict, facts)?;
    Ok(places)
}

fn add_facts(places: &mut Places, dict: &Dictionary, facts: &[u32]) -> Result<(), NoMemory>
    requires { All (λ f. IsNumber (accepted dict.now).tree.facts f) facts.now }
{
    for fact in facts {
        add_fact(places, dict, *fact)?;
    }
    Ok(())
}

fn add_fact(places: &mut Places, dict: &Dictionary, fact: u32) -> Result<(), NoMemory>
    requires { IsNumber (accepted dict.now).tree.facts fact }
{
    if dict.home(fact) != 0 {
        return Ok(());
    }
    places.push(DirtySlot {
        rank: dict.rank(fact),
        fact,
        member: 0,
    })
}
