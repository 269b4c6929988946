// Makes the names and lists of names that the program writes.
ghost use Rattle.std.specs.Prelude.{◌≡◌, ◌+◌, ◌++◌, ◌∷◌, ◌<◌, ◌^◌, [], not, length, map, vec_len, IfOk, IsTrue, OnOk};
ghost use Rattle.std.specs.List.{list_all};
ghost use Rattle.fact_paths.specs.Names.{IsName, is_name};
ghost use Rattle.value_text.specs.Enums.{is_repeated};
ghost use Rattle.written_facts.specs.Options.{is_empty, options_view, texts_view};

use fact_paths::{Name, PathFault};
use fact_values::NoMemory;
use std::alloc::Global;
use value_text::{EnumLists, ListFault};

/// The name that the text is.
pub fn named(alloc: Global, text: &str) -> Result<Name, NoMemory>
    requires { IsName text.now }
    ensures { IfOk result (λ name. name ≡ text.now) }
{
    match Name::read(alloc, text) {
        Ok(name) => Ok(name),
        Err(PathFault::BadPath) => unreachable!(),
        Err(PathFault::NoMemory) => Err(NoMemory),
    }
}

fn names(alloc: Global, texts: &[&str]) -> Result<Vec<Name>, NoMemory>
    requires { IsTrue (list_all is_name (texts_view texts.now)) }
    ensures { IfOk result (λ list. list.items ≡ texts_view texts.now) }
{
    let mut list = Vec::new(alloc);
    for text in texts {
        list.push(named(alloc, text)?)?;
    }
    Ok(list)
}

/// Appends a list of options under a name that no list has. The name and the options are names, and there is an option.
pub fn add_options(
    alloc: Global,
    name: &str,
    options: &[&str],
    lists: &mut EnumLists,
) -> Result<(), NoMemory>
    requires room { length lists.old + 1 < 2 ^ 32 }
    requires few { length options.now < 2 ^ 32 }
    requires name { IsName name.now }
    requires options { IsTrue (list_all is_name (texts_view options.now)) }
    requires new { IsTrue (not (is_repeated lists.old (options_view name.now options.now))) }
    requires some { IsTrue (not (is_empty (texts_view options.now))) }
    ensures { OnOk result (lists.new ≡ lists.old ++ options_view name.now options.now ∷ []) }
{
    let name = named(alloc, name)?;
    let options = names(alloc, options)?;
    match lists.add(name, options) {
        Ok(()) => Ok(()),
        Err(ListFault::NoMemory) => Err(NoMemory),
        Err(ListFault::Same) => unreachable!(),
        Err(ListFault::Empty) => unreachable!(),
    }
}
