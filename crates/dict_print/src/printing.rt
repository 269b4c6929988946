// Prints a dictionary as the JSON that spells it.
ghost use Rattle.std.specs.Prelude.{◌≡◌, ◌≤◌, length, Some, Ok, IfOk, OnOk};
ghost use Rattle.serde_json.specs.Data.{no_members};
ghost use Rattle.serde_json.specs.Read.{read};
ghost use Rattle.serde_json.specs.View.{view as json, members_view};
ghost use Rattle.dict_source.specs.Dictionary.{dictionary_view};
ghost use Rattle.dict_tree.specs.DictParsing.{BytesGive, max_bytes};
ghost use Rattle.dict_print.specs.DictionaryJson.{IsPrintable, all_members, dictionary_json, printed_version};

use crate::enum_value::put_enums;
use crate::fact_value::{fact_values, put_text};
use crate::table_value::put_tables;
use dict_source::DictSource;
use fact_json::{Version, some_uses_law, version_text};
use fact_values::NoMemory;
use serde_json::{Map, Value};
use std::alloc::Global;

// The version that has the dictionary's tables and operators.
fn version_of(source: &DictSource) -> Version
    ensures { result ≡ printed_version (dictionary_view source.now) }
{
    if !source.tables().is_empty() || some_uses_law(source.facts()) {
        Version::Law
    } else {
        Version::Second
    }
}

// Adds the members of a dictionary to none.
fn put_all(
    members: &mut Map<String, Value>,
    alloc: Global,
    source: &DictSource,
) -> Result<(), NoMemory>
    requires { members_view members.old.entries ≡ no_members }
    ensures members { OnOk result (members_view members.new.entries ≡ all_members (dictionary_view source.now)) }
    ensures printable { OnOk result (IsPrintable (dictionary_view source.now)) }
{
    let facts = source.facts();
    put_enums(members, alloc, source.enums())?;
    put_tables(members, alloc, source.enums(), source.tables())?;
    let facts = fact_values(alloc, facts)?;
    serde_json::put(members, alloc, "facts", facts)?;
    put_text(members, alloc, "version", version_text(version_of(source)))
}

fn dictionary_value(alloc: Global, source: &DictSource) -> Result<Value, NoMemory>
    ensures value { IfOk result (λ v. json v ≡ dictionary_json (dictionary_view source.now)) }
    ensures printable { IfOk result (λ _. IsPrintable (dictionary_view source.now)) }
{
    let mut members = Map::new(alloc);
    put_all(&mut members, alloc, source)?;
    Ok(Value::Object(members))
}

/// The dictionary as JSON, of version 2, or of the law profile where it has tables or one of its operators, laid out over lines. It
/// reads back as the same dictionary where it isn't longer than what `dict_tree::read` takes, 8,388,608 bytes. Descriptions of
/// the whole and of tables and the order of members aren't kept, since no tree has them.
pub fn print(alloc: Global, source: &DictSource) -> Result<Vec<u8>, NoMemory>
    ensures json { IfOk result (λ b. read b.items ≡ Some (dictionary_json (dictionary_view source.now))) }
    ensures reads_back { IfOk result (λ b. length b.items ≤ max_bytes
        → BytesGive b.items (Ok (dictionary_view source.now))) }
{
    let value = dictionary_value(alloc, source)?;
    let bytes = value.to_vec_pretty(alloc)?;
    Ok(bytes)
}
