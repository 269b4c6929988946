// Laws of cells at slots: slots are in a total order, and a put or a take changes one slot. Each function's contract is a law.
ghost use Rattle.std.specs.Cmp.{IsTotalOrder};
ghost use Rattle.std.specs.FinMap.{IsAntisymmetric};
ghost use Rattle.cell_store.specs.Laws.{PutChangesOneSlot, TakeChangesOneSlot};
ghost use Rattle.cell_store.specs.SlotOrder.{slot_cmp};

/// Slots are in order, and only equal ones tie.
pub fn slots_are_in_order()
    ensures total { IsTotalOrder slot_cmp }
    ensures distinct { IsAntisymmetric slot_cmp }
{}

/// To put or to take a cell changes what stands at its slot, and at no other.
pub fn changes_are_of_one_slot()
    ensures put { PutChangesOneSlot }
    ensures take { TakeChangesOneSlot }
{}
