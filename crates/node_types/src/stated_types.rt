// The types that facts state.
ghost use Rattle.std.specs.Prelude.{◌≡◌, option_and_then, option_copied, option_map, Some};
ghost use Rattle.fact_values.specs.declared.fact_type.FactType.TheVariants as types;
ghost use Rattle.value_text.specs.Enums.{list_place};
ghost use Rattle.dict_source.specs.Dictionary.{dictionary_view};
ghost use Rattle.dict_source.specs.Facts.{fact_view, stated_view};
ghost use Rattle.dict_source.specs.Facts.{list_of, writable_list};
ghost use Rattle.dict_source.specs.Targets.{base_name, global_name, item_base, list_base};
ghost use Rattle.dict_source.specs.View.{use_view};
ghost use Rattle.node_types.specs.StatedTypes.{base_number, stated_type as type_of_fact, type_at as type_of_number, type_stated};

use dict_source::{DictSource, FactSource, PathUse, TypeText};
use fact_paths::{FactPath, Name, UsePath};
use fact_values::FactType;

fn enum_type(source: &DictSource, name: &Name) -> Option<FactType>
    ensures { result ≡ option_map (λ list. types.Enum list) (list_place name.now (dictionary_view source.now).enums) }
{
    let list = source.enums().find(name.as_str())?;
    Some(FactType::Enum(list))
}

// The number of the fact `/b`: 0 where there is none.
fn number_of(source: &DictSource, base: &Name) -> u32
    ensures { result ≡ base_number (dictionary_view source.now) (Some base.now) }
{
    source.find_global(base).unwrap_or(0)
}

fn number_of_base(source: &DictSource, path: &UsePath) -> u32
    ensures { result ≡ base_number (dictionary_view source.now) (base_name path.now) }
{
    match path {
        UsePath::Global(name) => number_of(source, name),
        UsePath::Sibling(_) => 0,
        UsePath::Inner(_) => 0,
        UsePath::Each(..) => 0,
        UsePath::Through(..) => 0,
        UsePath::SiblingThrough(..) => 0,
    }
}

fn number_of_use(source: &DictSource, used: &PathUse) -> u32
    ensures { result ≡ base_number (dictionary_view source.now) (option_and_then base_name (use_view used.now).path) }
{
    match used {
        PathUse::Spelled(path) => number_of_base(source, path),
        PathUse::Misspelled(_) => 0,
    }
}

fn number_of_path(source: &DictSource, path: &FactPath) -> u32
    ensures { result ≡ base_number (dictionary_view source.now) (global_name path.now) }
{
    match path {
        FactPath::Global(name) => number_of(source, name),
        FactPath::Member(..) => 0,
    }
}

fn number_of_list(source: &DictSource, path: &Option<FactPath>) -> u32
    ensures { result ≡ base_number (dictionary_view source.now) (option_and_then global_name path.now) }
{
    match path {
        None => 0,
        Some(path) => number_of_path(source, path),
    }
}

/// The type that the fact states: none where its enum isn't declared. A base that names no fact is 0.
pub fn stated_type(source: &DictSource, fact: &FactSource) -> Option<FactType>
    ensures { result ≡ type_of_fact (dictionary_view source.now) (fact_view fact.now) }
{
    match &fact.stated {
        TypeText::Scalar(of) => Some(*of),
        TypeText::EnumOf(name) => enum_type(source, name),
        TypeText::WritableList => Some(FactType::Collection(number_of_list(source, &fact.path))),
        TypeText::ListOf(used) => Some(FactType::Collection(number_of_use(source, used))),
        TypeText::ItemOf(used) => Some(FactType::Item(number_of_use(source, used))),
    }
}

/// The type that the fact with this number states.
pub fn type_at(source: &DictSource, number: u32) -> Option<FactType>
    ensures { result ≡ type_of_number (dictionary_view source.now) number }
{
    match source.fact(number) {
        None => None,
        Some(fact) => stated_type(source, fact),
    }
}
