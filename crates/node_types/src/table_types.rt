// Which tables fit the lists of options that a dictionary has.
ghost use Rattle.std.specs.Prelude.{◌≡◌, if◌then◌else◌, Some, None, ◌&&◌};
ghost use Rattle.std.specs.List.{list_all};
ghost use Rattle.law_arithmetic.specs.declared.table.Row.{Row};
ghost use Rattle.dict_source.specs.OperandTypes.{same_type};
ghost use Rattle.dict_source.specs.Tables.{has_option, is_fit, table_values};
ghost use Rattle.node_types.specs.ListSizes.{is_enum, list_sizes};

use crate::operand_types::is_same;
use dict_source::LookupTable;
use fact_values::{FactType, Value};
use law_arithmetic::Row;
use value_text::EnumLists;

fn is_enum(of: FactType) -> bool
    ensures { result ≡ is_enum of }
{
    matches!(of, FactType::Enum(_))
}

// How many options the list at a place has, and 0 where there is none.
fn list_size(enums: &EnumLists, list: u32) -> usize
    ensures { result ≡ list_sizes enums.now list }
{
    match enums.options(list) {
        None => 0,
        Some(options) => options.len(),
    }
}

// Whether the value is no option, or one that its list has.
fn has_option(enums: &EnumLists, value: &Value) -> bool
    ensures { result ≡ has_option (list_sizes enums.now) value.now }
{
    match value {
        Value::Choice(list, place) => (*place as usize) < list_size(enums, *list),
        _ => true,
    }
}

fn rows_have_options(enums: &EnumLists, rows: &[Row]) -> bool
    ensures { result ≡ list_all (λ (row : Row). has_option (list_sizes enums.now) row.value) rows.now }
{
    rows.iter().all(|row| has_option(enums, &row.value))
}

#[tactic(auto, using(crate::proofs::FitLaws::options_of_rows))]
fn have_options(enums: &EnumLists, table: &LookupTable) -> bool
    ensures { result ≡ list_all (has_option (list_sizes enums.now)) (table_values table.now) }
{
    has_option(enums, table.below()) && rows_have_options(enums, table.rows().rows())
}

// Whether each value is one of the table's type. A table's values are of its kind, so that only an option may be lacking.
#[tactic(auto, using(crate::proofs::FitLaws::fit_by_options))]
fn is_fit(enums: &EnumLists, table: &LookupTable) -> bool
    ensures { result ≡ is_fit (list_sizes enums.now) table.now }
{
    !is_enum(table.to()) || have_options(enums, table)
}

/// From the type of the key, the type of what is looked up.
pub fn value_type(enums: &EnumLists, table: &LookupTable, key: FactType) -> Option<FactType>
    ensures { result ≡ (if is_fit (list_sizes enums.now) table.now && same_type key table.now.from then Some table.now.to
        else None) }
{
    if is_fit(enums, table) && is_same(key, table.from()) {
        Some(table.to())
    } else {
        None
    }
}
