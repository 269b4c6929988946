// Lists the lines that are dropped of a text that came from outside.
ghost use Rattle.std.specs.Prelude.{◌≡◌, ◌+◌, ◌<◌, ◌++◌, ◌∷◌, [], ◌≤◌, IfErr, IfOk, OnOk, length, map, string_bytes};
ghost use Rattle.text_checks.specs.Tables.{named_checks};
ghost use Rattle.graph_session.specs.Refusals.{SameChecks};
ghost use Rattle.graph_session.specs.Rules.{rules};
ghost use Rattle.saved_text.specs.CarriedParsing.{line_of, lines_of};
ghost use Rattle.save_file.specs.Resuming.{all_dropped, dropped_line, dropped_where, reason_of};
ghost use Rattle.saved_text.specs.declared.fault.LoadFault.TheVariants.{NoMemory};

use crate::reason::{Dropped, Reason, reason_of_line};
use dictionary::Dictionary;
use saved_text::{CarriedRead, LoadFault, TextLine, key_of};
use std::alloc::Global;
use text_checks::CheckTable;

fn note(
    number: u32,
    key: String,
    reason: Reason,
    dropped: &mut Vec<Dropped>,
) -> Result<(), LoadFault>
    ensures noted { OnOk result (map dropped_line dropped.new.items
        ≡ map dropped_line dropped.old.items ++ (number, (string_bytes key, reason)) ∷ []) }
    ensures memory { IfErr result (λ fault. fault ≡ NoMemory) }
{
    let line = Dropped {
        number,
        key,
        reason,
    };
    match dropped.push(line) {
        Err(_) => Err(LoadFault::NoMemory),
        Ok(()) => Ok(()),
    }
}

// Notes a line that is dropped.
fn note_line(
    alloc: Global,
    dict: &Dictionary,
    checks: &CheckTable,
    line: &TextLine,
    number: u32,
    dropped: &mut Vec<Dropped>,
) -> Result<(), LoadFault>
    requires same_checks { SameChecks (rules dict.now) (named_checks checks.now) }
    ensures noted { OnOk result (map dropped_line dropped.new.items ≡ map dropped_line dropped.old.items
        ++ dropped_where number (line_of line.now) (reason_of (rules dict.now) (line_of line.now))) }
    ensures memory { IfErr result (λ fault. fault ≡ NoMemory) }
{
    match reason_of_line(alloc, dict, checks, line) {
        Err(fault) => Err(fault),
        Ok(None) => Ok(()),
        Ok(Some(reason)) => match key_of(alloc, line) {
            Err(_) => Err(LoadFault::NoMemory),
            Ok(key) => note(number, key, reason, dropped),
        },
    }
}

// Goes through the lines.
fn note_lines(
    alloc: Global,
    dict: &Dictionary,
    checks: &CheckTable,
    lines: &[TextLine],
    dropped: &mut Vec<Dropped>,
) -> Result<(), LoadFault>
    requires same_checks { SameChecks (rules dict.now) (named_checks checks.now) }
    requires few { length lines.now + 3 < 4294967296 }
    ensures noted { OnOk result (map dropped_line dropped.new.items ≡ map dropped_line dropped.old.items
        ++ all_dropped (rules dict.now) (map line_of lines.now)) }
    ensures memory { IfErr result (λ fault. fault ≡ NoMemory) }
{
    let mut number = 3;
    for line in lines {
        match note_line(alloc, dict, checks, line, number, dropped) {
            Err(fault) => return Err(fault),
            Ok(()) => number += 1,
        }
    }
    Ok(())
}

/// The lines that are dropped, in order, each with the reason.
pub fn lines_dropped(
    alloc: Global,
    dict: &Dictionary,
    checks: &CheckTable,
    read: &CarriedRead,
) -> Result<Vec<Dropped>, LoadFault>
    requires same_checks { SameChecks (rules dict.now) (named_checks checks.now) }
    requires few { length read.now.lines.items + 3 < 4294967296 }
    ensures dropped { IfOk result (λ dropped. map dropped_line dropped.items
        ≡ all_dropped (rules dict.now) (lines_of read.now)) }
    ensures memory { IfErr result (λ fault. fault ≡ NoMemory) }
{
    let mut dropped = Vec::new(alloc);
    match note_lines(alloc, dict, checks, read.lines.as_slice(), &mut dropped) {
        Err(fault) => {
            drop(dropped);
            Err(fault)
        }
        Ok(()) => Ok(dropped),
    }
}
