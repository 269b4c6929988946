// The commands that put a watch and take it out.
ghost use Rattle.std.specs.Prelude.{◌≡◌, ◌++◌, ◌∷◌, [], IfErr, OnErr, OnOk, None};
ghost use Rattle.text_checks.specs.Places.{place_of};
ghost use Rattle.fact_watch.specs.Refusals.{Refused, unwatch_refusal, watch_of, watch_refusal};
ghost use Rattle.fact_watch.specs.Watching.{unnoted, without};

use crate::relation::WatchTable;
use crate::watches::{PutFault, Watches};
use fact_paths::Name;
use fact_values::Slot;

/// Why a watch on a slot that stands isn't put, or isn't taken out. Nothing has changed then.
#[derive(Clone, Copy, Debug, PartialEq, Eq)]
pub enum WatchRefusal {
    /// The table has no such name.
    UnknownWatch,
    /// The watch by that name, of that slot, is there.
    WatchThere,
    /// There are 1,000 watches.
    WatchesFull,
    /// The watch isn't there.
    NotWatched,
    /// There was no memory left.
    NoMemory,
}

/// Watches a slot that stands by the relation of this name.
pub fn watch(
    watches: &mut Watches,
    table: &WatchTable,
    name: &Name,
    slot: Slot,
) -> Result<(), WatchRefusal>
    ensures put { OnOk result (watches.new ≡ unnoted
        (watches.old.watched ++ watch_of (place_of table.now.relations.items (λ r. r.name) name.now) slot ∷ [])) }
    ensures allowed { OnOk result (watch_refusal (place_of table.now.relations.items (λ r. r.name) name.now)
        watches.old.watched slot ≡ None) }
    ensures refused { IfErr result (λ r. Refused r
        (watch_refusal (place_of table.now.relations.items (λ r. r.name) name.now) watches.old.watched slot)) }
    ensures unchanged { OnErr result (watches.new ≡ watches.old) }
{
    let Some(place) = table.find(name.as_str()) else {
        return Err(WatchRefusal::UnknownWatch);
    };
    match watches.put(place, slot) {
        Ok(()) => Ok(()),
        Err(PutFault::Same) => Err(WatchRefusal::WatchThere),
        Err(PutFault::Full) => Err(WatchRefusal::WatchesFull),
        Err(PutFault::NoMemory) => Err(WatchRefusal::NoMemory),
    }
}

/// Ends the watch on a slot that stands by the relation of this name.
pub fn unwatch(
    watches: &mut Watches,
    table: &WatchTable,
    name: &Name,
    slot: Slot,
) -> Result<(), WatchRefusal>
    ensures cut { OnOk result (watches.new ≡ unnoted
        (without (watch_of (place_of table.now.relations.items (λ r. r.name) name.now) slot) watches.old.watched)) }
    ensures allowed { OnOk result (unwatch_refusal (place_of table.now.relations.items (λ r. r.name) name.now)
        watches.old.watched slot ≡ None) }
    ensures refused { IfErr result (λ r. Refused r
        (unwatch_refusal (place_of table.now.relations.items (λ r. r.name) name.now) watches.old.watched slot)) }
    ensures unchanged { OnErr result (watches.new ≡ watches.old) }
{
    let Some(place) = table.find(name.as_str()) else {
        return Err(WatchRefusal::UnknownWatch);
    };
    if watches.cut(place, slot) {
        Ok(())
    } else {
        Err(WatchRefusal::NotWatched)
    }
}
