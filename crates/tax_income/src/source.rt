// Makes the source of the dictionary of each year with the rate schedule and the child tax credit.
ghost use Rattle.std.specs.Prelude.{◌≡◌, List, IfOk, OnOk};
ghost use Rattle.dict_source.specs.Dictionary.{dictionary_view};
ghost use Rattle.written_facts.specs.Figures.{Named, figures_view};
ghost use Rattle.written_facts.specs.WrittenFacts.{written_views};
ghost use Rattle.tax_2023.specs.Facts.{dictionary};
ghost use Rattle.tax_income.specs.Facts.{children, credit, dictionary_of, ends, income_dictionary, taxes, with_children, with_ends, with_taxes};
ghost use Rattle.tax_income.specs.Years.{income_of};

use crate::figures::figures_of;
use crate::rows::{CHILDREN, CREDIT, ENDS, TAXES};
use dict_source::DictSource;
use fact_values::NoMemory;
use std::alloc::Global;
use tax_2023::{TaxYear, year_source};
use written_facts::{Figure, WrittenFact, push_facts};

// ---- the rows write these facts, with any figures

fn end_rows() -> &'static [WrittenFact<'static>]
    ensures { (gs : List Named) → written_views gs result.now ≡ ends gs }
{
    ENDS
}

fn tax_rows() -> &'static [WrittenFact<'static>]
    ensures { (gs : List Named) → written_views gs result.now ≡ taxes }
{
    TAXES
}

fn child_rows() -> &'static [WrittenFact<'static>]
    ensures { (gs : List Named) → written_views gs result.now ≡ children gs }
{
    CHILDREN
}

fn credit_rows() -> &'static [WrittenFact<'static>]
    ensures { (gs : List Named) → written_views gs result.now ≡ credit }
{
    CREDIT
}

// ---- the source of a year takes them, group by group, whatever the figures of the year

fn add_ends(alloc: Global, figures: &[Figure<'_>], source: &mut DictSource) -> Result<(), NoMemory>
    requires { (fs : List Named) × (dictionary_view source.old ≡ dictionary fs) }
    ensures { (fs : List Named) → dictionary_view source.old ≡ dictionary fs
        → OnOk result (dictionary_view source.new ≡ with_ends fs (figures_view figures.now)) }
{
    push_facts(alloc, figures, end_rows(), source)
}

fn add_taxes(alloc: Global, figures: &[Figure<'_>], source: &mut DictSource) -> Result<(), NoMemory>
    requires { (fs : List Named) × (dictionary_view source.old ≡ with_ends fs (figures_view figures.now)) }
    ensures { (fs : List Named) → dictionary_view source.old ≡ with_ends fs (figures_view figures.now)
        → OnOk result (dictionary_view source.new ≡ with_taxes fs (figures_view figures.now)) }
{
    push_facts(alloc, figures, tax_rows(), source)
}

fn add_children(
    alloc: Global,
    figures: &[Figure<'_>],
    source: &mut DictSource,
) -> Result<(), NoMemory>
    requires { (fs : List Named) × (dictionary_view source.old ≡ with_taxes fs (figures_view figures.now)) }
    ensures { (fs : List Named) → dictionary_view source.old ≡ with_taxes fs (figures_view figures.now)
        → OnOk result (dictionary_view source.new ≡ with_children fs (figures_view figures.now)) }
{
    push_facts(alloc, figures, child_rows(), source)
}

fn add_credit(
    alloc: Global,
    figures: &[Figure<'_>],
    source: &mut DictSource,
) -> Result<(), NoMemory>
    requires { (fs : List Named) × (dictionary_view source.old ≡ with_children fs (figures_view figures.now)) }
    ensures { (fs : List Named) → dictionary_view source.old ≡ with_children fs (figures_view figures.now)
        → OnOk result (dictionary_view source.new ≡ income_dictionary fs (figures_view figures.now)) }
{
    push_facts(alloc, figures, credit_rows(), source)
}

// Adds the 24 facts behind those of a year.
fn add_facts(alloc: Global, figures: &[Figure<'_>], source: &mut DictSource) -> Result<(), NoMemory>
    requires { (fs : List Named) × (dictionary_view source.old ≡ dictionary fs) }
    ensures { (fs : List Named) → dictionary_view source.old ≡ dictionary fs
        → OnOk result (dictionary_view source.new ≡ income_dictionary fs (figures_view figures.now)) }
{
    add_ends(alloc, figures, source)?;
    add_taxes(alloc, figures, source)?;
    add_children(alloc, figures, source)?;
    add_credit(alloc, figures, source)
}

// The facts of a year and the 24 behind them.
fn with_income(
    alloc: Global,
    figures: &[Figure<'_>],
    year: DictSource,
) -> Result<DictSource, NoMemory>
    requires { (fs : List Named) × (dictionary_view year ≡ dictionary fs) }
    ensures { (fs : List Named) → dictionary_view year ≡ dictionary fs
        → IfOk result (λ source. dictionary_view source ≡ income_dictionary fs (figures_view figures.now)) }
{
    let mut source = year;
    match add_facts(alloc, figures, &mut source) {
        Ok(()) => Ok(source),
        Err(NoMemory) => {
            drop(source);
            Err(NoMemory)
        }
    }
}

/// The 45 facts of the year and the 24 behind them, in order.
pub fn income_source(alloc: Global, year: TaxYear) -> Result<DictSource, NoMemory>
    ensures { IfOk result (λ source. dictionary_view source ≡ dictionary_of (income_of year)) }
{
    let figures = figures_of(alloc, year)?;
    let source = year_source(alloc, year)?;
    with_income(alloc, &figures, source)
}
