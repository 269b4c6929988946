// Makes the source of the dictionary of each year, from its rows and figures.
ghost use Rattle.std.specs.Prelude.{◌≡◌, List, IfOk, OnOk};
ghost use Rattle.dict_source.specs.Dictionary.{dictionary_view};
ghost use Rattle.written_facts.specs.Figures.{Named, figures_view};
ghost use Rattle.written_facts.specs.WrittenFacts.{written_views};
ghost use Rattle.tax_2023.specs.Facts.{at_start, counts, dictionary, filed, filer, filing_statuses, persons, tests, with_filer, with_persons, with_return, with_tests};
ghost use Rattle.tax_2023.specs.Figures.{figures};
ghost use Rattle.tax_2023.specs.Years.{tables_of};

use crate::rows::{COUNTS, DEPENDENTS, FILER, FILING_STATUSES, RETURN, TESTS};
use crate::years::{TaxYear, figures_of};
use dict_source::DictSource;
use fact_values::NoMemory;
use std::alloc::Global;
use value_text::EnumLists;
use written_facts::{Figure, WrittenFact, add_options, push_facts};

// ---- the rows write these facts, with any figures

fn filer_rows() -> &'static [WrittenFact<'static>]
    ensures { (fs : List Named) → written_views fs result.now ≡ filer }
{
    FILER
}

fn return_rows() -> &'static [WrittenFact<'static>]
    ensures { (fs : List Named) → written_views fs result.now ≡ filed fs }
{
    RETURN
}

fn dependent_rows() -> &'static [WrittenFact<'static>]
    ensures { (fs : List Named) → written_views fs result.now ≡ persons }
{
    DEPENDENTS
}

fn test_rows() -> &'static [WrittenFact<'static>]
    ensures { (fs : List Named) → written_views fs result.now ≡ tests fs }
{
    TESTS
}

fn count_rows() -> &'static [WrittenFact<'static>]
    ensures { (fs : List Named) → written_views fs result.now ≡ counts }
{
    COUNTS
}

// ---- the source takes them, group by group

fn add_filer(alloc: Global, figures: &[Figure<'_>], source: &mut DictSource) -> Result<(), NoMemory>
    requires { dictionary_view source.old ≡ at_start }
    ensures { OnOk result (dictionary_view source.new ≡ with_filer) }
{
    push_facts(alloc, figures, filer_rows(), source)
}

fn add_return(
    alloc: Global,
    figures: &[Figure<'_>],
    source: &mut DictSource,
) -> Result<(), NoMemory>
    requires { dictionary_view source.old ≡ with_filer }
    ensures { OnOk result (dictionary_view source.new ≡ with_return (figures_view figures.now)) }
{
    push_facts(alloc, figures, return_rows(), source)
}

fn add_dependents(
    alloc: Global,
    figures: &[Figure<'_>],
    source: &mut DictSource,
) -> Result<(), NoMemory>
    requires { dictionary_view source.old ≡ with_return (figures_view figures.now) }
    ensures { OnOk result (dictionary_view source.new ≡ with_persons (figures_view figures.now)) }
{
    push_facts(alloc, figures, dependent_rows(), source)
}

fn add_tests(alloc: Global, figures: &[Figure<'_>], source: &mut DictSource) -> Result<(), NoMemory>
    requires { dictionary_view source.old ≡ with_persons (figures_view figures.now) }
    ensures { OnOk result (dictionary_view source.new ≡ with_tests (figures_view figures.now)) }
{
    push_facts(alloc, figures, test_rows(), source)
}

fn add_counts(
    alloc: Global,
    figures: &[Figure<'_>],
    source: &mut DictSource,
) -> Result<(), NoMemory>
    requires { dictionary_view source.old ≡ with_tests (figures_view figures.now) }
    ensures { OnOk result (dictionary_view source.new ≡ dictionary (figures_view figures.now)) }
{
    push_facts(alloc, figures, count_rows(), source)
}

// ---- the source

// The list of the filing statuses.
fn options(alloc: Global) -> Result<EnumLists, NoMemory>
    ensures { IfOk result (λ lists. lists ≡ filing_statuses) }
{
    let mut lists = EnumLists::new(alloc);
    add_options(alloc, "filingStatus", &FILING_STATUSES, &mut lists)?;
    Ok(lists)
}

// Adds all facts, with the figures of a year.
fn add_facts(alloc: Global, figures: &[Figure<'_>], source: &mut DictSource) -> Result<(), NoMemory>
    requires { dictionary_view source.old ≡ at_start }
    ensures { OnOk result (dictionary_view source.new ≡ dictionary (figures_view figures.now)) }
{
    add_filer(alloc, figures, source)?;
    add_return(alloc, figures, source)?;
    add_dependents(alloc, figures, source)?;
    add_tests(alloc, figures, source)?;
    add_counts(alloc, figures, source)
}

// The facts, with the figures of a year.
fn source(alloc: Global, figures: &[Figure<'_>]) -> Result<DictSource, NoMemory>
    ensures { IfOk result (λ source. dictionary_view source ≡ dictionary (figures_view figures.now)) }
{
    let mut source = DictSource::new(alloc, options(alloc)?);
    match add_facts(alloc, figures, &mut source) {
        Ok(()) => Ok(source),
        Err(NoMemory) => {
            drop(source);
            Err(NoMemory)
        }
    }
}

/// The 45 facts of the year, in order.
pub fn year_source(alloc: Global, year: TaxYear) -> Result<DictSource, NoMemory>
    ensures { IfOk result (λ source. dictionary_view source ≡ dictionary (figures (tables_of year))) }
{
    let figures = figures_of(alloc, year)?;
    source(alloc, &figures)
}
