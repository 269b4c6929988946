// Reads the type that a fact states.
ghost use Rattle.std.specs.Prelude.{◌≡◌, option_copied};
ghost use Rattle.fact_paths.specs.Cuts.{after};
ghost use Rattle.dict_source.specs.Facts.{stated_view};
ghost use Rattle.dict_source.specs.Parts.{Gives};
ghost use Rattle.fact_json.specs.StatedParsing.{before_close as before, between as found_between, scalar_named, enum_named, enum_stated, list_stated, pathed_stated, writable_stated, derived_stated};

use crate::expr_json::use_in;
use dict_source::{ReadFault, TypeText};
use fact_paths::{Name, PathFault};
use fact_values::FactType;
use std::alloc::Global;

// The text behind this front, where it begins with it.
fn behind<'a>(text: &'a str, front: &str) -> Option<&'a str>
    ensures { option_copied result ≡ after front.now text.now }
{
    text.strip_prefix(front)
}

// The text before the last byte, where that is `)`.
fn before_close(text: &str) -> Option<&str>
    ensures { option_copied result ≡ before text.now }
{
    text.strip_suffix(')')
}

fn between<'a>(text: &'a str, front: &str) -> Option<&'a str>
    ensures { option_copied result ≡ found_between front.now text.now }
{
    before_close(behind(text, front)?)
}

fn scalar_of(text: &str) -> Option<FactType>
    ensures { result ≡ scalar_named text.now }
{
    match text {
        "Boolean" => Some(FactType::Boolean),
        "Int" => Some(FactType::Int),
        "Dollar" => Some(FactType::Dollar),
        "Rational" => Some(FactType::Rational),
        "Day" => Some(FactType::Day),
        "Text" => Some(FactType::Text),
        _ => None,
    }
}

fn read_enum_name(alloc: Global, name: &str) -> Result<TypeText, ReadFault>
    ensures { Gives stated_view result (enum_named name.now) }
{
    match Name::read(alloc, name) {
        Ok(name) => Ok(TypeText::EnumOf(name)),
        Err(PathFault::BadPath) => Err(ReadFault::Shape),
        Err(PathFault::NoMemory) => Err(ReadFault::NoMemory),
    }
}

// `Enum(N)`
fn read_enum_type(alloc: Global, text: &str) -> Result<TypeText, ReadFault>
    ensures { Gives stated_view result (enum_stated text.now) }
{
    match between(text, "Enum(") {
        None => Err(ReadFault::Shape),
        Some(name) => read_enum_name(alloc, name),
    }
}

fn read_list_type(alloc: Global, text: &str) -> Result<TypeText, ReadFault>
    ensures { Gives stated_view result (list_stated text.now) }
{
    if text == "Collection" {
        return Ok(TypeText::WritableList);
    }
    read_enum_type(alloc, text)
}

/// The type that a writable fact states.
pub fn read_writable_type(alloc: Global, text: &str) -> Result<TypeText, ReadFault>
    ensures { Gives stated_view result (writable_stated text.now) }
{
    match scalar_of(text) {
        Some(scalar) => Ok(TypeText::Scalar(scalar)),
        None => read_list_type(alloc, text),
    }
}

// `Collection(P)`, `Item(P)`, or an enum
fn read_pathed_type(alloc: Global, text: &str) -> Result<TypeText, ReadFault>
    ensures { Gives stated_view result (pathed_stated text.now) }
{
    if let Some(path) = between(text, "Collection(") {
        return Ok(TypeText::ListOf(use_in(alloc, path)?));
    }
    if let Some(path) = between(text, "Item(") {
        return Ok(TypeText::ItemOf(use_in(alloc, path)?));
    }
    read_enum_type(alloc, text)
}

/// The type that a derived fact states.
pub fn read_derived_type(alloc: Global, text: &str) -> Result<TypeText, ReadFault>
    ensures { Gives stated_view result (derived_stated text.now) }
{
    match scalar_of(text) {
        Some(scalar) => Ok(TypeText::Scalar(scalar)),
        None => read_pathed_type(alloc, text),
    }
}
