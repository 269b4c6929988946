// The tables of a dictionary: values by keys that rise.
ghost use Rattle.std.specs.Prelude.{◌≡◌, IfOk, option_copied, map, pos};
ghost use Rattle.std.specs.List.{list_all};
ghost use Rattle.dict_source.specs.Tables.{IsLookupTable, are_keys as keys_are, is_key_type as type_of_keys, is_kind as kind_of, is_ratio as same_ratio, key_value, table_named, value_for, if_table, table_with_rows};
ghost use Rattle.dict_source.specs.Parts.{Gives};
ghost use Rattle.fact_values.specs.Rationals.{checked_ratio};
ghost use Rattle.fact_values.specs.Texts.{is_plain_text};

use crate::read_fault::ReadFault;
use fact_paths::Name;
use fact_values::{Day, Dollar, FactType, NoMemory, Rational, Text, Value, Whole};
use law_arithmetic::{Row, Table, key_of};
use std::alloc::Global;
use std::marker::Model;
use std::sync::Arc;

/// What a table says.
#[derive(Drop)]
struct Contents {
    name: Name,
    from: FactType,
    to: FactType,
    rows: Table,
    below: Value,
}

/// A table under its name. Copies share its rows.
#[derive(Drop)]
pub struct LookupTable {
    contents: Arc<Contents>,
}

impl Model for LookupTable {
    ghost use Rattle.dict_source.specs.Tables.{LookupTable, IsLookupTable};

    ghost Value = { LookupTable };

    ghost use Rattle.dict_source.specs.TableView.{contents_view};

    ghost view = { λ t. contents_view t.contents.value };

    ghost invariant = { λ t. IsLookupTable (contents_view t.contents.value) };
}

// ---- which values are of a type

fn is_ratio(q: Rational) -> bool
    ensures { result ≡ same_ratio (checked_ratio q.num (pos q.den)) q }
{
    match Rational::new(i128::from(q.num()), i128::from(q.den())) {
        Ok(lowest) => lowest.num() == q.num() && lowest.den() == q.den(),
        Err(_) => false,
    }
}

fn is_kind(of: FactType, value: &Value) -> bool
    ensures { result ≡ kind_of of value.now }
{
    match (of, value) {
        (FactType::Boolean, Value::Boolean(_)) => true,
        (FactType::Int, Value::Int(n)) => Whole::new(n.get()).is_some(),
        (FactType::Dollar, Value::Dollar(amount)) => Dollar::new(amount.cents()).is_some(),
        (FactType::Rational, Value::Rational(q)) => is_ratio(*q),
        (FactType::Day, Value::Day(day)) => Day::of_number(day.number()).is_some(),
        (FactType::Text, Value::Text(text)) => is_plain(text),
        (FactType::Enum(list), Value::Choice(of_list, _)) => *of_list == list,
        _ => false,
    }
}

// Each text that a value holds is plain.
fn is_plain(text: &Text) -> bool
    ensures { result ≡ is_plain_text text.now }
{
    let _ = text.as_str();
    true
}

fn is_key(from: FactType, key: i64) -> bool
    ensures { result ≡ kind_of from (key_value from key) }
{
    match from {
        FactType::Int => Whole::new(key).is_some(),
        FactType::Dollar => Dollar::new(key).is_some(),
        FactType::Day => Day::of_number(key).is_some(),
        _ => false,
    }
}

fn is_key_type(of: FactType) -> bool
    ensures { result ≡ type_of_keys of }
{
    matches!(of, FactType::Int | FactType::Dollar | FactType::Day)
}

fn are_keys(from: FactType, rows: &[Row]) -> bool
    ensures { result ≡ keys_are from rows.now }
{
    for row in rows {
        if !is_key(from, row.key) {
            return false;
        }
    }
    true
}

fn have_kind(to: FactType, rows: &[Row]) -> bool
    ensures { result ≡ list_all (kind_of to) (map (λ row. row.value) rows.now) }
{
    for row in rows {
        if !is_kind(to, &row.value) {
            return false;
        }
    }
    true
}

/// The table of this name.
pub fn find_table<'a>(tables: &'a [LookupTable], name: &str) -> Option<&'a LookupTable>
    ensures { option_copied result ≡ table_named name.now tables.now }
{
    for table in tables {
        if name == table.name().as_str() {
            return Some(table);
        }
    }
    None
}

impl LookupTable {
    /// The table, where there are at most 1,000 rows, their keys rise, and keys and values are of their types.
    pub fn new(
        alloc: Global,
        name: Name,
        from: FactType,
        to: FactType,
        rows: Vec<Row>,
        below: Value,
    ) -> Result<LookupTable, ReadFault>
        ensures { Gives (λ t. t) result (if_table (table_with_rows name from to rows.items below)) }
    {
        if !is_key_type(from) {
            return Err(ReadFault::Shape);
        }
        if !are_keys(from, rows.as_slice()) {
            return Err(ReadFault::Shape);
        }
        if !is_kind(to, &below) || !have_kind(to, rows.as_slice()) {
            return Err(ReadFault::Shape);
        }
        let Some(rows) = Table::new(rows) else {
            return Err(ReadFault::Shape);
        };
        Ok(LookupTable {
            contents: Arc::new(
                alloc,
                Contents {
                    name,
                    from,
                    to,
                    rows,
                    below,
                },
            )?,
        })
    }

    /// The same table. It fails where it has too many copies.
    pub fn copy(&self) -> Result<LookupTable, NoMemory>
        ensures { IfOk result (λ t. t ≡ self.now) }
    {
        Ok(LookupTable {
            contents: self.contents.clone()?,
        })
    }

    /// The name that a dictionary's nodes call it by.
    pub fn name(&self) -> &Name
        ensures { result.now ≡ self.now.name }
    {
        &self.contents.name
    }

    /// The type of the keys: Int, Dollar or Day.
    pub fn from(&self) -> FactType
        ensures value { result ≡ self.now.from }
        ensures table { IsLookupTable self.now }
    {
        self.contents.from
    }

    /// The type of the values.
    pub fn to(&self) -> FactType
        ensures value { result ≡ self.now.to }
        ensures table { IsLookupTable self.now }
    {
        self.contents.to
    }

    /// The rows, by their keys.
    pub fn rows(&self) -> &Table
        ensures { result.now ≡ self.now.rows }
    {
        &self.contents.rows
    }

    /// The value below the first key.
    pub fn below(&self) -> &Value
        ensures { result.now ≡ self.now.below }
    {
        &self.contents.below
    }

    /// The value of the last row whose key is at most that of the value, or the value below the first key.
    pub fn value_for(&self, value: &Value) -> &Value
        ensures value { result.now ≡ value_for self.now value.now }
        ensures table { IsLookupTable self.now }
    {
        match self.contents.rows.lookup(key_of(value)) {
            Some(found) => found,
            None => &self.contents.below,
        }
    }
}
