// The texts of values of all types, read and printed.
ghost use Rattle.std.specs.Prelude.{◌≡◌, ◌+◌, ◌≤◌, ◌++◌, length, codes, IsErrOf, IsSome, option_map, unwrap_or};
ghost use Rattle.value_text.specs.Enums.{option_at, option_place_in};
ghost use Rattle.value_text.specs.Values.{Gives, IsPrinted, IsRead, Reads, boolean_at, printed, text_at, value_at};
ghost use Rattle.value_text.specs.declared.value.TextFault.TheVariants.{NoMemory};
ghost use Rattle.fact_values.specs.declared.fact_type.FactType.{FactType};
ghost use Rattle.fact_values.specs.declared.fact_type.FactType.TheVariants as types;
ghost use Rattle.fact_values.specs.declared.value.Value.TheVariants as values;

use crate::boolean::{print_boolean, read_boolean};
use crate::day::{print_day, read_day};
use crate::dollar::{print_dollar, read_dollar};
use crate::enum_lists::EnumLists;
use crate::line::Line;
use crate::members::{print_item, print_members};
use crate::rational::{print_rational, read_rational};
use crate::whole::{print_number, read_whole};
use fact_paths::Name;
use fact_values::{FactType, Text, Value};
use std::alloc::{AllocError, Global};

/// Why no value was read.
#[derive(Clone, Copy, Debug, PartialEq, Eq)]
pub enum TextFault {
    /// The text spells no value of the type.
    BadValue,
    /// No memory was left for a copy of the text.
    NoMemory,
}

impl From<AllocError> for TextFault {
    ghost from_gives = { λ _ fault. fault ≡ NoMemory };

    fn from(_error: AllocError) -> TextFault {
        TextFault::NoMemory
    }
}

// The text as a value, with memory for a copy of it.
fn read_text(alloc: Global, text: &str) -> Result<Value, TextFault>
    ensures { Gives (option_map (λ kept. values.Text kept) (text_at text.now)) result }
{
    let kept = String::from_str(alloc, text)?;
    match Text::new(kept) {
        Some(kept) => Ok(Value::Text(kept)),
        None => Err(TextFault::BadValue),
    }
}

// The option of a list that a text names.
fn read_choice(enums: &EnumLists, list: u32, text: &str) -> Option<Value>
    ensures { result ≡ option_map (λ place. values.Choice list place) (option_place_in enums.now list text.now) }
{
    let place = enums.option_place(list, text)?;
    Some(Value::Choice(list, place))
}

// The value of a type other than Text that a text spells.
fn read_plain(want: FactType, enums: &EnumLists, text: &str) -> Option<Value>
    requires { ¬ (want ≡ types.Text) }
    ensures { result ≡ value_at enums.now want text.now }
{
    match want {
        FactType::Boolean => Some(Value::Boolean(read_boolean(text)?)),
        FactType::Int => Some(Value::Int(read_whole(text)?)),
        FactType::Dollar => Some(Value::Dollar(read_dollar(text)?)),
        FactType::Rational => Some(Value::Rational(read_rational(text)?)),
        FactType::Day => Some(Value::Day(read_day(text)?)),
        FactType::Enum(list) => read_choice(enums, list, text),
        FactType::Text => unreachable!(),
        FactType::Collection(_) => None,
        FactType::Item(_) => None,
    }
}

// The value of a type that a text spells.
fn read_value(
    alloc: Global,
    want: FactType,
    enums: &EnumLists,
    text: &str,
) -> Result<Value, TextFault>
    ensures value { Gives (value_at enums.now want text.now) result }
    ensures memory { IsErrOf result TextFault.NoMemory → want ≡ types.Text }
{
    if let FactType::Text = want {
        return read_text(alloc, text);
    }
    match read_plain(want, enums, text) {
        Some(value) => Ok(value),
        None => Err(TextFault::BadValue),
    }
}

/// The value of a type that a text spells. Only a Text takes memory, for a copy of it.
pub fn read(
    alloc: Global,
    want: FactType,
    enums: &EnumLists,
    text: &str,
) -> Result<Value, TextFault>
    requires { IsRead enums.now want }
    ensures spelled { Reads enums.now want text.now result }
    ensures memory { IsErrOf result TextFault.NoMemory → want ≡ types.Text }
    ensures value { Gives (value_at enums.now want text.now) result }
{
    read_value(alloc, want, enums, text)
}

// Appends an option's name.
fn print_choice(enums: &EnumLists, list: u32, place: u32, out: &mut Line)
    requires listed { IsSome (option_at enums.now list place) }
    requires room { length out.old + 64 ≤ 1100 }
    ensures appended { out.new ≡ out.old ++ unwrap_or (option_at enums.now list place) (codes "") }
    ensures short { length out.new ≤ length out.old + 64 }
{
    let name = enums.option(list, place).unwrap();
    print_name(name, out);
}

// Appends a name.
#[tactic(auto, using(crate::proofs::EnumLemmas::name_short))]
fn print_name(name: &Name, out: &mut Line)
    requires room { length out.old + 64 ≤ 1100 }
    ensures appended { out.new ≡ out.old ++ name.now }
    ensures short { length out.new ≤ length out.old + 64 }
{
    out.push(name.as_str().as_bytes());
}

// Appends a text.
#[tactic(auto, using(crate::proofs::EnumLemmas::text_short))]
fn print_text(text: &Text, out: &mut Line)
    requires room { length out.old + 1000 ≤ 1100 }
    ensures appended { out.new ≡ out.old ++ text.now }
    ensures short { length out.new ≤ length out.old + 1000 }
{
    out.push(text.as_str().as_bytes());
}

/// Appends the text of a value, at most 1,024 bytes, for which there must be room.
pub fn print(value: &Value, enums: &EnumLists, out: &mut Line)
    requires listed { IsPrinted enums.now value.now }
    requires room { length out.old ≤ 76 }
    ensures appended { out.new ≡ out.old ++ printed enums.now value.now }
    ensures short { length out.new ≤ length out.old + 1024 }
{
    match value {
        Value::Boolean(b) => print_boolean(*b, out),
        Value::Int(number) => print_number(number.get(), out),
        Value::Dollar(amount) => print_dollar(*amount, out),
        Value::Rational(rational) => print_rational(*rational, out),
        Value::Day(day) => print_day(*day, out),
        Value::Text(text) => print_text(text, out),
        Value::Choice(list, place) => print_choice(enums, *list, *place, out),
        Value::Members(members) => print_members(members, out),
        Value::Item(member) => print_item(*member, out),
    }
}
