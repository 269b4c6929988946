// Why a line of a text that came from outside is dropped.
ghost use Rattle.std.specs.Prelude.{◌≡◌, Some, IfErr, IfOk, option_map, string_bytes};
ghost use Rattle.text_checks.specs.Tables.{named_checks};
ghost use Rattle.dict_source.specs.Finding.{IsNumber};
ghost use Rattle.answers.specs.declared.edit.Side.TheVariants.{Answer};
ghost use Rattle.graph_session.specs.Refusals.{SameChecks, first_of};
ghost use Rattle.graph_session.specs.Rules.{rules, tree_of};
ghost use Rattle.saved_text.specs.CarriedParsing.{line_of};
ghost use Rattle.saved_text.specs.CarriedText.{collection, entry};
ghost use Rattle.save_file.specs.Resuming.{fact_refusals, reason_of};
ghost use Rattle.save_file.specs.declared.reason.Reason.TheVariants.{Refused as RefusedBy};
ghost use Rattle.saved_text.specs.declared.fault.LoadFault.TheVariants as faults;

use crate::keeping::{collection_of, find_fact};
use answers::Side;
use dictionary::Dictionary;
use fact_paths::SlotPath;
use graph_session::{Refusal, is_answered, is_want_of_memory, judge_value};
use saved_text::{EntryLine, ListLine, LoadFault, TextLine};
use std::alloc::Global;
use text_checks::CheckTable;

/// Why a line is dropped.
#[derive(Clone, Copy, PartialEq, Eq)]
pub enum Reason {
    /// The dictionary has no writable collection of the name.
    NoCollection,
    /// `set` refuses the value with this.
    Refused(Refusal),
    /// The line is an override.
    Override,
}

/// A line that is dropped.
#[derive(Drop)]
pub struct Dropped {
    /// Its number in the text, from 1.
    pub number: u32,
    /// Its kind and what it names: `list /N`, `value SLOT` or `override SLOT`.
    pub key: String,
    pub reason: Reason,
}

// Why the list is dropped.
fn reason_of_list(dict: &Dictionary, line: &ListLine) -> Option<Reason>
    ensures { result ≡ reason_of (rules dict.now) (collection line.now.name line.now.members) }
{
    match collection_of(dict, line) {
        Some(_) => None,
        None => Some(Reason::NoCollection),
    }
}

// Why the text is no answer of the fact.
fn refusal_of(
    alloc: Global,
    dict: &Dictionary,
    checks: &CheckTable,
    fact: u32,
    text: &str,
) -> Result<Option<Refusal>, LoadFault>
    requires number { IsNumber (tree_of (rules dict.now)).facts fact }
    requires same_checks { SameChecks (rules dict.now) (named_checks checks.now) }
    ensures refusal { IfOk result (λ o. o ≡ first_of (fact_refusals (rules dict.now) fact text.now)) }
    ensures memory { IfErr result (λ fault. fault ≡ faults.NoMemory) }
{
    if !is_answered(dict, fact) {
        return Ok(Some(Refusal::WrongKind));
    }
    match judge_value(alloc, dict, checks, fact, text) {
        Ok(value) => {
            drop(value);
            Ok(None)
        }
        Err(refusal) => {
            if is_want_of_memory(refusal) {
                Err(LoadFault::NoMemory)
            } else {
                Ok(Some(refusal))
            }
        }
    }
}

fn refused(refusal: Option<Refusal>) -> Option<Reason>
    ensures { result ≡ option_map (λ f. RefusedBy f) refusal }
{
    match refusal {
        None => None,
        Some(refusal) => Some(Reason::Refused(refusal)),
    }
}

// Why the value is dropped.
fn reason_of_value(
    alloc: Global,
    dict: &Dictionary,
    checks: &CheckTable,
    path: &SlotPath,
    text: &str,
) -> Result<Option<Reason>, LoadFault>
    requires same_checks { SameChecks (rules dict.now) (named_checks checks.now) }
    ensures reason { IfOk result (λ o. o ≡ reason_of (rules dict.now) (entry Answer path.now text.now)) }
    ensures memory { IfErr result (λ fault. fault ≡ faults.NoMemory) }
{
    let Some(fact) = find_fact(dict, path) else {
        return Ok(Some(Reason::Refused(Refusal::UnknownFact)));
    };
    match refusal_of(alloc, dict, checks, fact, text) {
        Err(fault) => Err(fault),
        Ok(refusal) => Ok(refused(refusal)),
    }
}

// Why the entry is dropped.
fn reason_of_entry(
    alloc: Global,
    dict: &Dictionary,
    checks: &CheckTable,
    line: &EntryLine,
) -> Result<Option<Reason>, LoadFault>
    requires same_checks { SameChecks (rules dict.now) (named_checks checks.now) }
    ensures reason { IfOk result (λ o. o ≡ reason_of (rules dict.now)
        (entry line.now.side line.now.path (string_bytes line.now.text))) }
    ensures memory { IfErr result (λ fault. fault ≡ faults.NoMemory) }
{
    match line.side {
        Side::Answer => reason_of_value(alloc, dict, checks, &line.path, line.text.as_str()),
        Side::Override => Ok(Some(Reason::Override)),
    }
}

/// Why the line is dropped.
pub fn reason_of_line(
    alloc: Global,
    dict: &Dictionary,
    checks: &CheckTable,
    line: &TextLine,
) -> Result<Option<Reason>, LoadFault>
    requires same_checks { SameChecks (rules dict.now) (named_checks checks.now) }
    ensures reason { IfOk result (λ o. o ≡ reason_of (rules dict.now) (line_of line.now)) }
    ensures memory { IfErr result (λ fault. fault ≡ faults.NoMemory) }
{
    match line {
        TextLine::Collection(list) => Ok(reason_of_list(dict, list)),
        TextLine::Entry(entry) => reason_of_entry(alloc, dict, checks, entry),
    }
}
