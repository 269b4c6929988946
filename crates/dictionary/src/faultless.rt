// Accepts a source that is proved to have no fault.
ghost use Rattle.std.specs.Prelude.{◌≡◌, [], IfOk};
ghost use Rattle.dict_source.specs.Dictionary.{dictionary_view};
ghost use Rattle.dict_meaning.specs.Accepted.{IsAccepted};
ghost use Rattle.dictionary.specs.AcceptedParts.{accepted};
ghost use Rattle.dictionary.specs.Faults.{HasNoFault};
ghost use Rattle.dictionary.specs.declared.fault.DictFault.TheVariants as faults;

use crate::accepting::of_source;
use crate::dictionary::Dictionary;
use crate::fault::DictFault;
use dict_source::DictSource;
use fact_values::NoMemory;
use std::alloc::Global;
use text_checks::CheckTable;

// The fault can be no other.
fn memory(_fault: DictFault) -> NoMemory
    requires { _fault ≡ faults.NoMemory }
{
    NoMemory
}

/// The dictionary of a source that is proved to have no fault, accepted with no checks: only memory may be wanting.
pub fn of_faultless_source(alloc: Global, source: DictSource) -> Result<Dictionary, NoMemory>
    requires { HasNoFault (dictionary_view source) [] }
    ensures is_accepted { IfOk result (λ d. IsAccepted [] (accepted d)) }
    ensures source { IfOk result (λ d. d.source ≡ source) }
    ensures checks { IfOk result (λ d. d.checks ≡ []) }
{
    let checks = CheckTable::new(alloc);
    match of_source(alloc, source, &checks) {
        Ok(dictionary) => Ok(dictionary),
        Err(fault) => Err(memory(fault)),
    }
}
