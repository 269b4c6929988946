// Begins sessions from saved texts that came from outside.
ghost use Rattle.std.specs.Prelude.{◌≡◌, IfErr, IfOk, map};
ghost use Rattle.answers.specs.Meaning.{answered};
ghost use Rattle.text_checks.specs.Tables.{named_checks};
ghost use Rattle.dictionary.specs.declared.fault.DictFault.TheVariants.{NoMemory as WantsMemory};
ghost use Rattle.graph_session.specs.Rules.{rules};
ghost use Rattle.saved_text.specs.CarriedText.{IsCarriedText};
ghost use Rattle.save_file.specs.Resuming.{IsResume, dropped_line};
ghost use Rattle.session_lines.specs.Tables.{standard_checks};
ghost use Rattle.fact_graph_c.specs.Openings.{RefusesOver, ResumesOver};
ghost use Rattle.fact_graph_c.specs.declared.fault.NotBegun.TheVariants.{Dictionary as OfDictionary};

use crate::dropped_lines::dropped_lines_text;
use crate::engine::Engine;
use crate::fault::NotBegun;
use crate::opening::{SAVED_LIMIT, begin, not_resumed, wants_memory};
use dictionary::Dictionary;
use fact_values::NoMemory;
use save_file::{Resumed, resume};
use std::alloc::Global;
use text_checks::CheckTable;

// A session over the dictionary from what was taken of the text, which says which lines aren't kept.
fn begin_from(
    alloc: Global,
    dict: Dictionary,
    saved: &[u8],
    resumed: Resumed,
) -> Result<Box<Engine>, NotBegun>
    requires same { dict.checks ≡ standard_checks }
    requires is_resume { IsResume (rules dict) saved.now (answered resumed.answers) (map dropped_line resumed.dropped.items) }
    ensures resumed { IfOk result (λ e. ResumesOver (rules dict) saved.now e.value) }
    ensures memory { IfErr result (λ why. why ≡ OfDictionary WantsMemory) }
{
    match dropped_lines_text(alloc, resumed.dropped.as_slice()) {
        Ok(text) => begin(alloc, dict, resumed.answers, text),
        Err(NoMemory) => Err(wants_memory()),
    }
}

/// A session over the dictionary from what may be taken of the text. It says which lines aren't kept, and why.
pub fn begin_resumed(
    alloc: Global,
    dict: Dictionary,
    checks: &CheckTable,
    saved: &[u8],
) -> Result<Box<Engine>, NotBegun>
    requires same { dict.checks ≡ standard_checks }
    requires checks { named_checks checks.now ≡ standard_checks }
    ensures resumed { IfOk result (λ e. ResumesOver (rules dict) saved.now e.value) }
    ensures refused { IfErr result (RefusesOver IsCarriedText saved.now) }
{
    if saved.len() > SAVED_LIMIT {
        return Err(NotBegun::Saved(0));
    }
    match resume(alloc, &dict, checks, saved) {
        Ok(resumed) => begin_from(alloc, dict, saved, resumed),
        Err(fault) => Err(not_resumed(fault)),
    }
}
