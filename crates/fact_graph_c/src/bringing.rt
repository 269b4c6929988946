// Begins sessions over the dictionaries that come with the library.
ghost use Rattle.std.specs.Prelude.{◌≡◌, [], false, IfErr, IfOk, None};
ghost use Rattle.answers.specs.Answered.{start};
ghost use Rattle.dictionary.specs.AcceptedParts.{accepted};
ghost use Rattle.dictionary.specs.Checks.{has_check};
ghost use Rattle.dictionary.specs.declared.fault.DictFault.TheVariants.{NoMemory as WantsMemory};
ghost use Rattle.built_in.specs.BuiltIns.{IsBrought, built_in_of};
ghost use Rattle.graph_session.specs.Rules.{rules};
ghost use Rattle.fact_graph_c.specs.Openings.{Brings, IsBegun, NotBrought, OpensBuiltIn};
ghost use Rattle.fact_graph_c.specs.declared.fault.NotBegun.TheVariants.{Dictionary as OfDictionary, Unknown};

use crate::engine::Engine;
use crate::fault::NotBegun;
use crate::opening::begin_silent;
use answers::Answers;
use built_in::{BuiltIn, bring, named};
use dictionary::{DictFault, Dictionary};
use fact_values::NoMemory;
use std::alloc::Global;

// The dictionary of these words.
fn named_by(words: &[u8]) -> Option<BuiltIn>
    ensures { result ≡ built_in_of words.now }
{
    match str::from_utf8(words) {
        Ok(words) => named(words),
        Err(_) => None,
    }
}

/// The dictionary of these words, or why there is none.
pub fn brought(alloc: Global, words: &[u8]) -> Result<Dictionary, NotBegun>
    ensures brought { IfOk result (λ d. Brings words.now (rules d)) }
    ensures no_check { IfOk result (λ d. has_check (accepted d).tree ≡ false) }
    ensures refused { IfErr result (NotBrought words.now) }
{
    match named_by(words) {
        None => Err(NotBegun::Unknown),
        Some(built_in) => match bring(alloc, built_in) {
            Ok(dict) => Ok(dict),
            Err(NoMemory) => Err(NotBegun::Dictionary(DictFault::NoMemory)),
        },
    }
}

/// A session over the dictionary of these words, with no answers, or why there is none.
pub fn open_built_in(alloc: Global, words: &[u8]) -> Result<Box<Engine>, NotBegun>
    ensures opened { IfOk result (λ e. OpensBuiltIn words.now e.value) }
    ensures refused { IfErr result (NotBrought words.now) }
{
    match brought(alloc, words) {
        Ok(dict) => begin_silent(alloc, dict, Answers::new(alloc)),
        Err(why) => Err(why),
    }
}
