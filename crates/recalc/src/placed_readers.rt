// The readers of each fact, of which those that are global facts stand as places of the queue.
ghost use Rattle.std.specs.Prelude.{[], ◌∷◌, All, IfOk, IfSome, List, OnOk};
ghost use Rattle.dep_index.specs.Readers.{IsIndex};
ghost use Rattle.dep_index.specs.declared.readers_of.ReaderOf.{ReaderOf as OneReader};
ghost use Rattle.dict_source.specs.Finding.{IsNumber};
ghost use Rattle.dictionary.specs.AcceptedParts.{accepted};
ghost use Rattle.recalc.specs.PlacedReaders.{AllArePlaced, ArePlaced, IsPlaced};

use dep_index::{ReaderOf, Readers};
use dictionary::Dictionary;
use dirty_slots::{DirtySlot, Places};
use fact_values::NoMemory;
use std::alloc::Global;

/// The readers of a fact: the places of those that are global facts, and the others.
#[derive(Drop)]
pub struct PlacedReaders {
    pub places: Vec<u32>,
    pub others: Vec<ReaderOf>,
}

/// The readers of each fact, by its number. The first row has none, since no fact has the number 0.
pub fn place_readers(
    alloc: Global,
    dict: &Dictionary,
    places: &Places,
    readers: &Readers,
) -> Result<Vec<PlacedReaders>, NoMemory>
    requires { IsIndex (accepted dict.now) readers.now }
    ensures { IfOk result (λ rows. AllArePlaced (accepted dict.now) places.now readers.now rows.items) }
{
    let count = dict.fact_count();
    let mut rows = Vec::with_capacity(alloc, count as usize + 1)?;
    rows.push(PlacedReaders {
        places: Vec::new(alloc),
        others: Vec::new(alloc),
    })?;
    for place in 0..count {
        let fact = place + 1;
        let row = place_row(alloc, dict, places, fact, readers.readers(fact))?;
        rows.push(row)?;
    }
    Ok(rows)
}

fn place_row(
    alloc: Global,
    dict: &Dictionary,
    places: &Places,
    fact: u32,
    readers: &[ReaderOf],
) -> Result<PlacedReaders, NoMemory>
    requires number { IsNumber (accepted dict.now).tree.facts fact }
    requires numbers { All (λ r. IsNumber (accepted dict.now).tree.facts r.fact) readers.now }
    ensures { IfOk result (ArePlaced (accepted dict.now) places.now fact readers.now []) }
{
    let mut row = PlacedReaders {
        places: Vec::new(alloc),
        others: Vec::new(alloc),
    };
    for reader in readers {
        add_reader(&mut row, dict, places, fact, *reader)?;
    }
    Ok(row)
}

fn add_reader(
    row: &mut PlacedReaders,
    dict: &Dictionary,
    places: &Places,
    fact: u32,
    reader: ReaderOf,
) -> Result<(), NoMemory>
    requires number { IsNumber (accepted dict.now).tree.facts fact }
    requires reader { IsNumber (accepted dict.now).tree.facts reader.fact }
    ensures { OnOk result ((all left : List OneReader)
        → ArePlaced (accepted dict.now) places.now fact all (reader ∷ left) row.old
        → ArePlaced (accepted dict.now) places.now fact all left row.new) }
{
    match place_of(dict, places, fact, reader) {
        Some(place) => row.places.push(place)?,
        None => row.others.push(reader)?,
    }
    Ok(())
}

// The place of a reader that is a global fact, if it has one and reads each slot of the fact.
fn place_of(dict: &Dictionary, places: &Places, fact: u32, reader: ReaderOf) -> Option<u32>
    requires number { IsNumber (accepted dict.now).tree.facts fact }
    requires reader { IsNumber (accepted dict.now).tree.facts reader.fact }
    ensures { IfSome result (λ place. IsPlaced (accepted dict.now) places.now fact reader place) }
{
    if dict.home(reader.fact) != 0 || (reader.same && dict.home(fact) != 0) {
        return None;
    }
    let place = places.place(DirtySlot {
        rank: dict.rank(reader.fact),
        fact: reader.fact,
        member: 0,
    })?;
    u32::try_from(place).ok()
}
