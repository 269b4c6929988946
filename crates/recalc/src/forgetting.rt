// Takes away the cells of a member that went.
ghost use Rattle.std.specs.Prelude.{◌≡◌};
ghost use Rattle.std.specs.FinMap as map;
ghost use Rattle.fact_values.specs.declared.slot.Slot.{Slot as OneSlot};
ghost use Rattle.recalc.specs.EngineInvariant.{without_member, without_gone};

use cell_store::Store;
use fact_values::Slot;

/// Takes away the cells of the member that went, if one did, at these facts. It takes no memory.
pub fn forget(store: &mut Store, gone: Option<u32>, facts: &[u32])
    ensures { (s : OneSlot) → map.get store.new.cells s ≡ without_gone store.old.cells gone facts.now s }
{
    match gone {
        None => {}
        Some(member) => forget_member(store, member, facts),
    }
}

fn forget_member(store: &mut Store, member: u32, facts: &[u32])
    ensures { (s : OneSlot) → map.get store.new.cells s ≡ without_member store.old.cells member facts.now s }
{
    for fact in facts {
        forget_one(store, *fact, member);
    }
}

fn forget_one(store: &mut Store, fact: u32, member: u32)
    ensures { store.new.cells ≡ map.remove store.old.cells (record { fact = fact; member = member }) }
{
    let _ = store.take(Slot { fact, member });
}
