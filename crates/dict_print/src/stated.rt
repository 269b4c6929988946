// The text of a type as a fact states it.
ghost use Rattle.std.specs.Prelude.{◌≡◌, ◌<◌, ◌++◌, codes, length, string_bytes, OnOk};
ghost use Rattle.fact_values.specs.declared.fact_type.FactType.TheVariants as types;
ghost use Rattle.value_text.specs.Values.{IsRead};
ghost use Rattle.dict_source.specs.Facts.{stated_view};
ghost use Rattle.dict_source.specs.View.{use_view};
ghost use Rattle.fact_json.specs.FactJson.{IsNamed, scalar_text, stated_text};
ghost use Rattle.dict_print.specs.DictionaryJson.{stated_type};

use dict_source::{PathUse, TypeText};
use fact_values::{FactType, NoMemory};
use value_text::EnumLists;

/// Appends a text.
pub fn push(out: &mut String, text: &str) -> Result<(), NoMemory>
    ensures { OnOk result (string_bytes out.new ≡ string_bytes out.old ++ text.now) }
{
    out.push_str(text)?;
    Ok(())
}

/// The text of a type that needs no name.
pub fn scalar_word(scalar: FactType) -> &'static str
    ensures { result.now ≡ scalar_text scalar }
{
    match scalar {
        FactType::Boolean => "Boolean",
        FactType::Int => "Int",
        FactType::Dollar => "Dollar",
        FactType::Rational => "Rational",
        FactType::Day => "Day",
        FactType::Text => "Text",
        FactType::Enum(_) => "",
        FactType::Collection(_) => "",
        FactType::Item(_) => "",
    }
}

// Appends the front, the name or path, and `)`.
fn push_enclosed(out: &mut String, front: &str, text: &str) -> Result<(), NoMemory>
    ensures { OnOk result (string_bytes out.new ≡ string_bytes out.old ++ (front.now ++ (text.now ++ codes ")"))) }
{
    push(out, front)?;
    push(out, text)?;
    push(out, ")")
}

// The same of a path in a type.
fn push_use(out: &mut String, front: &str, used: &PathUse) -> Result<(), NoMemory>
    ensures { OnOk result (string_bytes out.new ≡ string_bytes out.old
        ++ (front.now ++ ((use_view used.now).text ++ codes ")"))) }
{
    let text = used.text(*out.allocator())?;
    push_enclosed(out, front, text.as_str())
}

/// Appends the text of a type.
pub fn push_stated(out: &mut String, stated: &TypeText) -> Result<(), NoMemory>
    ensures text { OnOk result (string_bytes out.new ≡ string_bytes out.old ++ stated_text (stated_view stated.now)) }
    ensures named { IsNamed (stated_view stated.now) }
{
    match stated {
        TypeText::Scalar(scalar) => push(out, scalar_word(*scalar)),
        TypeText::EnumOf(name) => push_enclosed(out, "Enum(", name.as_str()),
        TypeText::WritableList => push(out, "Collection"),
        TypeText::ListOf(used) => push_use(out, "Collection(", used),
        TypeText::ItemOf(used) => push_use(out, "Item(", used),
    }
}

// Appends the type of the options of the list at a place.
fn push_enum(out: &mut String, enums: &EnumLists, list: u32) -> Result<(), NoMemory>
    requires { list < length enums.now }
    ensures { OnOk result (string_bytes out.new ≡ string_bytes out.old
        ++ stated_text (stated_type enums.now (types.Enum list))) }
{
    let Some(name) = enums.name(list) else {
        unreachable!()
    };
    push_enclosed(out, "Enum(", name)
}

/// Appends the text of the type of a table's values.
pub fn push_type(out: &mut String, enums: &EnumLists, of: FactType) -> Result<(), NoMemory>
    requires { IsRead enums.now of }
    ensures { OnOk result (string_bytes out.new ≡ string_bytes out.old ++ stated_text (stated_type enums.now of)) }
{
    match of {
        FactType::Enum(list) => push_enum(out, enums, list),
        _ => push(out, scalar_word(of)),
    }
}
