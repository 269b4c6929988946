// Prints the facts of a dictionary as lines.
ghost use Rattle.std.specs.Prelude.{◌≡◌, ◌++◌, option_map, string_bytes, IfOk, OnOk};
ghost use Rattle.dict_source.specs.View.{view};
ghost use Rattle.dict_source.specs.Facts.{fact_view};
ghost use Rattle.dict_source.specs.Dictionary.{dictionary_view};
ghost use Rattle.dict_print.specs.FactsText.{fact_line, facts_text, kind_text};

use crate::stated::{push, push_stated};
use dict_source::{DictSource, Expr, FactSource};
use fact_values::NoMemory;
use std::alloc::Global;

fn kind_of(main: &Option<Expr>) -> &'static str
    ensures { result.now ≡ kind_text (option_map view main.now) }
{
    match main {
        None => " writable ",
        Some(_) => " derived ",
    }
}

// Appends the line of a fact.
fn push_line(out: &mut String, fact: &FactSource) -> Result<(), NoMemory>
    ensures { OnOk result (string_bytes out.new ≡ string_bytes out.old ++ fact_line (fact_view fact.now)) }
{
    push(out, fact.path_text.as_str())?;
    push(out, kind_of(&fact.main))?;
    push_stated(out, &fact.stated)?;
    push(out, "\n")
}

/// A line for each fact, in their order: `PATH writable TYPE` or `PATH derived TYPE`, with the path and the type as they are
/// written, and a newline.
pub fn print_facts(alloc: Global, source: &DictSource) -> Result<Vec<u8>, NoMemory>
    ensures lines { IfOk result (λ b. b.items ≡ facts_text (dictionary_view source.now)) }
{
    let mut out = String::new(alloc);
    let facts = source.facts();
    for fact in facts {
        push_line(&mut out, fact)?;
    }
    Ok(out.into_bytes())
}
