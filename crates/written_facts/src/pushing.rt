// Makes a source of written facts.
ghost use Rattle.std.specs.Prelude.{◌≡◌, ◌++◌, ◌∷◌, ◌<◌, [], map, IsTrue, IfOk, OnOk};
ghost use Rattle.dict_source.specs.Dictionary.{dictionary_view, with_fact};
ghost use Rattle.dict_source.specs.Facts.{fact_view};
ghost use Rattle.written_facts.specs.Figures.{figures_view};
ghost use Rattle.written_facts.specs.WrittenFacts.{written_views};
ghost use Rattle.written_facts.specs.Taking.{takes, takes_all, with_facts};

use crate::figure::Figure;
use crate::stating::fact_of;
use crate::written_fact::WrittenFact;
use dict_source::{DictSource, FactSource};
use fact_values::NoMemory;
use std::alloc::Global;

fn push(source: &mut DictSource, fact: FactSource) -> Result<(), NoMemory>
    requires { IsTrue (takes (dictionary_view source.old) (fact_view fact)) }
    ensures { OnOk result (dictionary_view source.new ≡ with_fact (dictionary_view source.old) (fact_view fact)) }
{
    match source.push(fact) {
        Ok(()) => Ok(()),
        Err(unpushed) => {
            drop(unpushed);
            Err(NoMemory)
        }
    }
}

/// Appends these facts, with the figures of these names. The source takes them, as the test tells, which
/// computes.
pub fn push_facts(
    alloc: Global,
    figures: &[Figure<'_>],
    facts: &[WrittenFact<'_>],
    source: &mut DictSource,
) -> Result<(), NoMemory>
    requires { IsTrue (takes_all (dictionary_view source.old) (written_views (figures_view figures.now) facts.now)) }
    ensures { OnOk result (dictionary_view source.new ≡ with_facts (dictionary_view source.old)
        (written_views (figures_view figures.now) facts.now)) }
{
    for written in facts {
        let fact = fact_of(alloc, figures, written)?;
        push(source, fact)?;
    }
    Ok(())
}
