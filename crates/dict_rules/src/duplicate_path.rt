// The rule that no two facts have one path.
ghost use Rattle.std.specs.Prelude.{◌≡◌};
ghost use Rattle.dict_source.specs.Dictionary.{dictionary_view};
ghost use Rattle.dict_source.specs.Facts.{fact_view};
ghost use Rattle.dict_rules.specs.DuplicatePath.{is_before as before, is_duplicate as duplicate};

use dict_source::{DictSource, FactSource};

fn is_before(number: u32, found: Option<u32>) -> bool
    ensures { result ≡ before number found }
{
    match found {
        None => false,
        Some(found) => found < number,
    }
}

/// Whether an earlier fact has the same path.
pub fn is_duplicate(source: &DictSource, number: u32, fact: &FactSource) -> bool
    ensures { result ≡ duplicate (dictionary_view source.now) number (fact_view fact.now) }
{
    match &fact.path {
        None => false,
        Some(path) => is_before(number, source.find(path)),
    }
}
