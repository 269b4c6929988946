// Says the dictionary of a session.
ghost use Rattle.std.specs.Prelude.{◌≡◌, [], IfErr, IfOk, option_map, string_bytes};
ghost use Rattle.dict_source.specs.Finding.{fact_at};
ghost use Rattle.graph_session.specs.Rules.{rules, tree_of};
ghost use Rattle.fact_graph_c.specs.Answering.{rules_of};
ghost use Rattle.fact_graph_c.specs.Printing.{IsDescription, IsDictionaryText, IsFactsText, description_of as description_of_fact, words_of as the_words_of};
ghost use Rattle.fact_graph_c.specs.Saying.{Says, SaysText};

use crate::engine::Engine;
use crate::outcome::Outcome;
use crate::text::Text;
use dict_print::{print, print_facts};
use dictionary::Dictionary;
use fact_values::NoMemory;
use fg_io::{Failed, put_text};
use std::alloc::Global;

// Says the bytes.
fn say(bytes: &[u8], text: &mut Text) -> Outcome
    ensures { SaysText (λ said. said ≡ bytes.now) result text.new.bytes.items }
{
    text.clear();
    match put_text(bytes, text) {
        Ok(()) => Outcome::Said,
        Err(Failed) => {
            text.clear();
            Outcome::NoMemory
        }
    }
}

fn dictionary_bytes(alloc: Global, dict: &Dictionary) -> Result<Vec<u8>, NoMemory>
    ensures { IfOk result (λ bytes. IsDictionaryText (rules dict.now) bytes.items) }
{
    print(alloc, dict.source())
}

fn facts_bytes(alloc: Global, dict: &Dictionary) -> Result<Vec<u8>, NoMemory>
    ensures { IfOk result (λ bytes. IsFactsText (rules dict.now) bytes.items) }
{
    print_facts(alloc, dict.source())
}

fn words_of(description: &Option<String>) -> &[u8]
    ensures { result.now ≡ the_words_of (option_map string_bytes description.now) }
{
    match description {
        None => &[],
        Some(words) => words.as_bytes(),
    }
}

// What the fact with this number is, in words.
fn description_of(dict: &Dictionary, number: u32) -> &[u8]
    ensures { result.now ≡ description_of_fact (fact_at (tree_of (rules dict.now)).facts number) }
{
    match dict.source().fact(number) {
        None => &[],
        Some(fact) => words_of(&fact.description),
    }
}

/// Says the dictionary of the session as JSON.
pub fn say_dictionary(alloc: Global, engine: &mut Engine) -> Outcome
    ensures { Says (IsDictionaryText (rules_of engine.old)) engine.old engine.new result }
{
    match dictionary_bytes(alloc, engine.session.dict()) {
        Ok(bytes) => say(bytes.as_slice(), &mut engine.text),
        Err(NoMemory) => {
            engine.text.clear();
            Outcome::NoMemory
        }
    }
}

/// Says the facts of the session's dictionary, each in a line.
pub fn say_facts(alloc: Global, engine: &mut Engine) -> Outcome
    ensures { Says (IsFactsText (rules_of engine.old)) engine.old engine.new result }
{
    match facts_bytes(alloc, engine.session.dict()) {
        Ok(bytes) => say(bytes.as_slice(), &mut engine.text),
        Err(NoMemory) => {
            engine.text.clear();
            Outcome::NoMemory
        }
    }
}

/// Says the description of the fact with this number: nothing where it has none, or no fact has the number.
pub fn say_description(engine: &mut Engine, number: u32) -> Outcome
    ensures { Says (IsDescription (rules_of engine.old) number) engine.old engine.new result }
{
    say(
        description_of(engine.session.dict(), number),
        &mut engine.text,
    )
}
