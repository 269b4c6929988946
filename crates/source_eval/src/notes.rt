// Where the slots that an evaluation reads are noted.
ghost use Rattle.std.specs.Prelude.{◌∷◌, [], Bool, List, OnOk, false};
ghost use Rattle.fact_values.specs.declared.slot.Slot.{Slot};
ghost use Rattle.source_eval.specs.Noted.{Noted};

use fact_values::{NoMemory, Slot};

/// Notes the slots that an evaluation reads, in order, each as often as it is read.
pub trait Notes {
    /// Whether it keeps them.
    ghost keeps: { Bool };

    /// Those that it keeps.
    ghost noted: { Self → List Slot };

    /// Notes one more.
    fn note(&mut self, slot: Slot) -> Result<(), NoMemory>
        ensures { OnOk result (Noted keeps (noted self.old) (slot ∷ []) (noted self.new)) };
}

/// Keeps none.
#[derive(Drop)]
pub struct Unnoted;

impl Notes for Unnoted {
    ghost keeps = { false };

    ghost noted = { λ notes. [] };

    fn note(&mut self, _slot: Slot) -> Result<(), NoMemory> {
        Ok(())
    }
}
