// Opens the collections whose lists are kept.
ghost use Rattle.std.specs.Prelude.{◌≡◌, ◌++◌, ◌∷◌, [], IfErr, IfOk, OnOk, map, option_copied, option_map};
ghost use Rattle.std.specs.List.{find};
ghost use Rattle.answers.specs.GivenLists.{IsOfLists};
ghost use Rattle.answers.specs.Meaning.{answered};
ghost use Rattle.answers.specs.WellFormed.{FromOne, WellFormed};
ghost use Rattle.graph_session.specs.Rules.{rules, tree_of};
ghost use Rattle.saved_text.specs.CarriedParsing.{line_of, lines_of, text_of};
ghost use Rattle.fact_values.specs.Members.{IsMemberList};
ghost use Rattle.saved_text.specs.CarriedText.{IsCarried, members_in};
ghost use Rattle.save_file.specs.Keeping.{opened, opened_at, opened_by, opens_fact};
ghost use Rattle.saved_text.specs.declared.fault.LoadFault.TheVariants.{NoMemory};

use crate::keeping::collection_of;
use answers::Answers;
use dictionary::Dictionary;
use fact_values::Members;
use graph_session::is_list;
use saved_text::{CarriedRead, LoadFault, TextLine, members_of};
use std::alloc::Global;

// Whether the line opens this collection.
fn opens(dict: &Dictionary, fact: u32, line: &TextLine) -> bool
    ensures { result ≡ opens_fact (tree_of (rules dict.now)) fact (line_of line.now) }
{
    match line {
        TextLine::Entry(_) => false,
        TextLine::Collection(list) => match collection_of(dict, list) {
            None => false,
            Some(found) => found == fact,
        },
    }
}

fn first_line<'a>(dict: &Dictionary, lines: &'a [TextLine], fact: u32) -> Option<&'a TextLine>
    ensures { option_copied result ≡ find (λ l. opens_fact (tree_of (rules dict.now)) fact (line_of l)) lines.now }
{
    lines.iter().find(|line| opens(dict, fact, line))
}

// The line that opens it, which is looked for where it may be opened.
fn opening_line<'a>(dict: &Dictionary, lines: &'a [TextLine], fact: u32) -> Option<&'a TextLine>
    ensures { option_map line_of (option_copied result) ≡ find (opens_fact (tree_of (rules dict.now)) fact)
        (map line_of lines.now) }
{
    if !is_list(dict, fact) {
        return None;
    }
    first_line(dict, lines, fact)
}

fn copy_members(alloc: Global, members: &[u32]) -> Result<Members, LoadFault>
    requires { IsMemberList members.now }
    ensures copied { IfOk result (λ copy. copy ≡ members.now) }
    ensures memory { IfErr result (λ fault. fault ≡ NoMemory) }
{
    match Vec::from_slice(alloc, members) {
        Err(_) => Err(LoadFault::NoMemory),
        Ok(list) => match Members::new(list) {
            None => unreachable!(),
            Some(copy) => Ok(copy),
        },
    }
}

// Adds what the line gives the collection.
fn push_list(
    alloc: Global,
    fact: u32,
    line: &TextLine,
    given: &mut Vec<(u32, Members)>,
) -> Result<(), LoadFault>
    ensures pushed { OnOk result (given.new.items ≡ given.old.items ++ (fact, members_in (line_of line.now)) ∷ []) }
    ensures memory { IfErr result (λ fault. fault ≡ NoMemory) }
{
    match copy_members(alloc, members_of(line)) {
        Err(fault) => Err(fault),
        Ok(members) => match given.push((fact, members)) {
            Err(_) => Err(LoadFault::NoMemory),
            Ok(()) => Ok(()),
        },
    }
}

// Adds what the lines give the collection.
fn add_list(
    alloc: Global,
    dict: &Dictionary,
    lines: &[TextLine],
    fact: u32,
    given: &mut Vec<(u32, Members)>,
) -> Result<(), LoadFault>
    ensures added { OnOk result (given.new.items ≡ given.old.items ++ opened_at (tree_of (rules dict.now))
        (map line_of lines.now) fact) }
    ensures memory { IfErr result (λ fault. fault ≡ NoMemory) }
{
    match opening_line(dict, lines, fact) {
        None => Ok(()),
        Some(line) => push_list(alloc, fact, line, given),
    }
}

// What the lines give all collections, by their facts.
fn given_lists(
    alloc: Global,
    dict: &Dictionary,
    lines: &[TextLine],
) -> Result<Vec<(u32, Members)>, LoadFault>
    ensures given { IfOk result (λ given. given.items ≡ opened (tree_of (rules dict.now)) (map line_of lines.now)) }
    ensures memory { IfErr result (λ fault. fault ≡ NoMemory) }
{
    let count = dict.fact_count();
    let mut given = Vec::new(alloc);
    let mut done = 0;
    while done < count {
        done += 1;
        match add_list(alloc, dict, lines, done, &mut given) {
            Err(fault) => return Err(fault),
            Ok(()) => {}
        }
    }
    Ok(given)
}

/// Opens the collections of the lists that are kept.
pub fn open_kept(alloc: Global, dict: &Dictionary, read: &CarriedRead) -> Result<Answers, LoadFault>
    requires { IsCarried (text_of read.now) }
    ensures lists { IfOk result (λ a. IsOfLists (opened (tree_of (rules dict.now)) (lines_of read.now)) read.now.next
        (answered a)) }
    ensures well { IfOk result (λ a. WellFormed (answered a)) }
    ensures from_one { IfOk result (λ a. FromOne (answered a)) }
    ensures memory { IfErr result (λ fault. fault ≡ NoMemory) }
{
    match given_lists(alloc, dict, read.lines.as_slice()) {
        Err(fault) => Err(fault),
        Ok(given) => match Answers::with_lists(alloc, given, read.next) {
            Err(_) => Err(LoadFault::NoMemory),
            Ok(answers) => Ok(answers),
        },
    }
}
