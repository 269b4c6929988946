// Makes a load: its dictionary, accepted, and its script.
ghost use Rattle.std.specs.Prelude.{◌≡◌, ◌≤◌, [], IfOk};
ghost use Rattle.dict_meaning.specs.Accepted.{IsAccepted};
ghost use Rattle.dictionary.specs.AcceptedParts.{accepted};
ghost use Rattle.dict_gen.specs.Chain.{chain};
ghost use Rattle.dict_gen.specs.Script.{script as load};

use crate::script::script;
use crate::source::source;
use dictionary::{Dictionary, of_faultless_source};
use fact_values::NoMemory;
use std::alloc::Global;

/// A load: a dictionary, and a script to run over it.
#[derive(Drop)]
pub struct Load {
    /// It was accepted with no checks.
    pub dict: Dictionary,
    /// Each line is ended by the byte 10.
    pub script: Vec<u8>,
}

/// The load with `n` sums, from 1 to 1,000. That the dictionary has no fault is proved, so none is answered.
pub fn make(alloc: Global, n: u32) -> Result<Load, NoMemory>
    requires some { 1 ≤ n }
    requires most { n ≤ 1000 }
    ensures tree { IfOk result (λ made. (accepted made.dict).tree ≡ chain n) }
    ensures is_accepted { IfOk result (λ made. IsAccepted [] (accepted made.dict)) }
    ensures checks { IfOk result (λ made. made.dict.checks ≡ []) }
    ensures script { IfOk result (λ made. made.script.items ≡ load n) }
{
    let script = script(alloc, n)?;
    let dict = of_faultless_source(alloc, source(alloc, n)?)?;
    Ok(Load { dict, script })
}
