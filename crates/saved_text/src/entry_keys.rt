// The texts of slots that the lines of a carried text name, each once.
ghost use Rattle.std.specs.Prelude.{◌≡◌, ◌||◌, List, ℕ, bytes_eq, false, not, IfErr, IfOk, OnOk, string_bytes};
ghost use Rattle.script_lines.specs.declared.fault.LineFault.TheVariants.{NoMemory};

use script_lines::LineFault;
use std::alloc::Global;
use std::collections::HashSet;

/// Texts, each once.
#[derive(Drop)]
pub struct EntryKeys {
    texts: HashSet<String>,
}

impl EntryKeys {
    ghost use Rattle.saved_text.specs.EntryKeys.{has};

    /// None is there.
    pub fn new(alloc: Global) -> EntryKeys
        ensures { (text : List ℕ) → has result text ≡ false }
    {
        EntryKeys {
            texts: HashSet::new(alloc),
        }
    }

    /// Adds a text, and tells whether it is new.
    pub fn add(&mut self, text: String) -> Result<bool, LineFault>
        ensures fresh { IfOk result (λ fresh. fresh ≡ not (has self.old (string_bytes text))) }
        ensures added { OnOk result ((other : List ℕ) → has self.new other
            ≡ (bytes_eq other (string_bytes text) || has self.old other)) }
        ensures memory { IfErr result (λ fault. fault ≡ NoMemory) }
    {
        let Ok(fresh) = self.texts.insert(text) else {
            return Err(LineFault::NoMemory);
        };
        Ok(fresh)
    }
}
