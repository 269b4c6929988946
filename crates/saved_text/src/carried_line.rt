// Reads a line of a carried text, whatever the dictionary.
ghost use Rattle.std.specs.Prelude.{◌≡◌, ◌≤◌, ◌++◌, List, ℕ, IfErr, IfOk, codes, length, string_bytes};
ghost use Rattle.std.specs.List.{AllByRecursion};
ghost use Rattle.std.specs.Str.{IsUtf8};
ghost use Rattle.fact_paths.specs.Cuts.{Lacks};
ghost use Rattle.fact_paths.specs.Names.{IsName};
ghost use Rattle.fact_paths.specs.Paths.{IsMemberNumber};
ghost use Rattle.script_lines.specs.Lines.{HasNoNewline};
ghost use Rattle.script_lines.specs.declared.fault.LineFault.TheVariants.{NoMemory};
ghost use Rattle.value_text.specs.MemberTexts.{printed_rest};
ghost use Rattle.saved_text.specs.CarriedParsing.{BeginsOther, ReadsLine, ReadsName, ReadsPath, line_of};
ghost use Rattle.fact_values.specs.Members.{IsMemberList};
ghost use Rattle.saved_text.specs.CarriedText.{members_in};
ghost use Rattle.saved_text.specs.SavedText.{side_word as word_of_side};

use crate::reading::{at_blank, behind, read_members};
use answers::Side;
use fact_paths::{Name, PathFault, SlotPath, read_slot_path};
use fact_values::Members;
use script_lines::LineFault;
use std::alloc::Global;

/// A collection's name with its members.
#[derive(Drop)]
pub struct ListLine {
    pub name: Name,
    pub members: Members,
}

/// A slot's path with the text of its value, on a side.
#[derive(Drop)]
pub struct EntryLine {
    pub side: Side,
    pub path: SlotPath,
    pub text: String,
}

/// A line behind the first two and before the last.
#[derive(Drop)]
pub enum TextLine {
    Collection(ListLine),
    Entry(EntryLine),
}

/// The members that the line lists.
pub fn members_of(line: &TextLine) -> &[u32]
    ensures members { result.now ≡ members_in (line_of line.now) }
    ensures list { IsMemberList result.now }
    ensures few { length result.now ≤ 100 }
{
    match line {
        TextLine::Collection(list) => list.members.as_slice(),
        TextLine::Entry(_) => &[],
    }
}

fn read_name(alloc: Global, text: &str) -> Result<Name, LineFault>
    ensures { ReadsName text.now result }
{
    match Name::read(alloc, text) {
        Ok(name) => Ok(name),
        Err(PathFault::BadPath) => Err(LineFault::BadLine),
        Err(PathFault::NoMemory) => Err(LineFault::NoMemory),
    }
}

fn read_path(alloc: Global, text: &str) -> Result<SlotPath, LineFault>
    ensures { ReadsPath text.now result }
{
    match read_slot_path(alloc, text) {
        Ok(path) => Ok(path),
        Err(PathFault::BadPath) => Err(LineFault::BadLine),
        Err(PathFault::NoMemory) => Err(LineFault::NoMemory),
    }
}

fn copy_text(alloc: Global, text: &str) -> Result<String, LineFault>
    ensures copied { IfOk result (λ copy. string_bytes copy ≡ text.now) }
    ensures utf8 { IsUtf8 text.now }
    ensures memory { IfErr result (λ fault. fault ≡ NoMemory) }
{
    match String::from_str(alloc, text) {
        Ok(copy) => Ok(copy),
        Err(_) => Err(LineFault::NoMemory),
    }
}

// The line of this name with these members.
fn with_members(alloc: Global, name: &str, found: Vec<u32>) -> Result<TextLine, LineFault>
    requires name { Lacks 32 name.now }
    requires numbers { AllByRecursion IsMemberNumber found.items }
    ensures { ReadsLine (codes "list /" ++ (name.now ++ printed_rest found.items)) result }
{
    match read_name(alloc, name) {
        Err(fault) => Err(fault),
        Ok(name) => match Members::new(found) {
            None => {
                drop(name);
                Err(LineFault::BadLine)
            }
            Some(members) => Ok(TextLine::Collection(ListLine { name, members })),
        },
    }
}

// The line of a list, of what stands behind its first word and the slash.
fn read_list_line(alloc: Global, text: &str) -> Result<TextLine, LineFault>
    ensures { ReadsLine (codes "list /" ++ text.now) result }
{
    match at_blank(text) {
        None => with_members(alloc, text, Vec::new(alloc)),
        Some((name, behind)) => match read_members(alloc, behind) {
            Err(fault) => Err(fault),
            Ok(found) => with_members(alloc, name, found),
        },
    }
}

// The line of an entry, of what stands behind its first word.
fn read_entry_line(alloc: Global, side: Side, text: &str) -> Result<TextLine, LineFault>
    requires { HasNoNewline text.now }
    ensures { ReadsLine (word_of_side side ++ text.now) result }
{
    let Some((path, value)) = at_blank(text) else {
        return Err(LineFault::BadLine);
    };
    match read_path(alloc, path) {
        Err(fault) => Err(fault),
        Ok(path) => match copy_text(alloc, value) {
            Err(fault) => {
                drop(path);
                Err(fault)
            }
            Ok(text) => Ok(TextLine::Entry(EntryLine { side, path, text })),
        },
    }
}

// The line of an entry, by its first word.
fn read_entry(alloc: Global, line: &str) -> Result<TextLine, LineFault>
    requires line { HasNoNewline line.now }
    requires no_list { BeginsOther (codes "list /") line.now }
    ensures { ReadsLine line.now result }
{
    match behind("value ", line) {
        Some(text) => read_entry_line(alloc, Side::Answer, text),
        None => match behind("override ", line) {
            Some(text) => read_entry_line(alloc, Side::Override, text),
            None => Err(LineFault::BadLine),
        },
    }
}

/// The line, by its first word.
pub fn read_line(alloc: Global, line: &str) -> Result<TextLine, LineFault>
    requires { HasNoNewline line.now }
    ensures { ReadsLine line.now result }
{
    match behind("list /", line) {
        Some(text) => read_list_line(alloc, text),
        None => read_entry(alloc, line),
    }
}
