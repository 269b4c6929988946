// Makes facts of written facts.
ghost use Rattle.std.specs.Prelude.{◌≡◌, IfOk, IsTrue, Some, option_map, map, string_bytes, [], ◌∷◌};
ghost use Rattle.fact_paths.specs.Parsing.{fact_path_of};
ghost use Rattle.dict_source.specs.Facts.{fact_view, least, limit_view, stated_view};
ghost use Rattle.dict_source.specs.View.{view};
ghost use Rattle.written_facts.specs.Figures.{figures_view};
ghost use Rattle.written_facts.specs.Forms.{form_view};
ghost use Rattle.written_facts.specs.WrittenFacts.{asked, asked_from, derived as follows, described, fact_with, kind_view, written_view, with_words};
ghost use Rattle.written_facts.specs.Taking.{is_named};

use crate::building::build;
use crate::figure::Figure;
use crate::form::Form;
use crate::naming::named;
use crate::written_fact::{Kind, WrittenFact};
use dict_source::{Expr, FactSource, LimitText, TypeText, read_use};
use fact_paths::{FactPath, PathFault, read_fact_path};
use fact_values::{FactType, NoMemory};
use std::alloc::Global;

// What the text spells, if anything.
fn path_of(alloc: Global, text: &str) -> Result<Option<FactPath>, NoMemory>
    ensures { IfOk result (λ path. path ≡ fact_path_of text.now) }
{
    match read_fact_path(alloc, text) {
        Ok(path) => Ok(Some(path)),
        Err(PathFault::BadPath) => Ok(None),
        Err(PathFault::NoMemory) => Err(NoMemory),
    }
}

fn state(alloc: Global, kind: &Kind<'_>) -> Result<TypeText, NoMemory>
    requires { IsTrue (is_named (kind_view kind.now)) }
    ensures { IfOk result (λ stated. stated_view stated ≡ kind_view kind.now) }
{
    match kind {
        Kind::Boolean => Ok(TypeText::Scalar(FactType::Boolean)),
        Kind::Int => Ok(TypeText::Scalar(FactType::Int)),
        Kind::Dollar => Ok(TypeText::Scalar(FactType::Dollar)),
        Kind::Rational => Ok(TypeText::Scalar(FactType::Rational)),
        Kind::Day => Ok(TypeText::Scalar(FactType::Day)),
        Kind::Text => Ok(TypeText::Scalar(FactType::Text)),
        Kind::Enum(name) => Ok(TypeText::EnumOf(named(alloc, name)?)),
        Kind::Collection => Ok(TypeText::WritableList),
        Kind::ListOf(path) => Ok(TypeText::ListOf(read_use(alloc, path)?)),
        Kind::ItemOf(path) => Ok(TypeText::ItemOf(read_use(alloc, path)?)),
    }
}

// The limit that answers are at least this.
fn at_least(alloc: Global, text: &str) -> Result<Vec<LimitText>, NoMemory>
    ensures { IfOk result (λ limits. map limit_view limits.items ≡ least text.now ∷ []) }
{
    let mut limits = Vec::new(alloc);
    limits.push(LimitText::Min(String::from_str(alloc, text)?))?;
    Ok(limits)
}

// What each fact has: its path, with the text of it, and its type.
#[derive(Drop)]
struct Head {
    path_text: String,
    path: Option<FactPath>,
    stated: TypeText,
}

fn start(alloc: Global, path: &str, kind: &Kind<'_>) -> Result<Head, NoMemory>
    requires { IsTrue (is_named (kind_view kind.now)) }
    ensures text { IfOk result (λ h. string_bytes h.path_text ≡ path.now) }
    ensures path { IfOk result (λ h. h.path ≡ fact_path_of path.now) }
    ensures stated { IfOk result (λ h. stated_view h.stated ≡ kind_view kind.now) }
{
    let path_text = String::from_str(alloc, path)?;
    let path = path_of(alloc, path)?;
    let stated = state(alloc, kind)?;
    Ok(Head {
        path_text,
        path,
        stated,
    })
}

fn fact(
    head: Head,
    limits: Vec<LimitText>,
    main: Option<Expr>,
    description: Option<String>,
) -> FactSource
    ensures { fact_view result ≡ with_words (option_map string_bytes description) (fact_with
        (string_bytes head.path_text) head.path (stated_view head.stated) (map limit_view limits.items)
        (option_map view main)) }
{
    FactSource {
        path_text: head.path_text,
        path: head.path,
        stated: head.stated,
        limits,
        main,
        conditional: None,
        placeholder: None,
        description,
    }
}

fn question(alloc: Global, path: &str, kind: &Kind<'_>, words: &str) -> Result<FactSource, NoMemory>
    requires { IsTrue (is_named (kind_view kind.now)) }
    ensures { IfOk result (λ f. fact_view f ≡ described words.now (asked path.now (kind_view kind.now))) }
{
    let words = String::from_str(alloc, words)?;
    let head = start(alloc, path, kind)?;
    Ok(fact(head, Vec::new(alloc), None, Some(words)))
}

fn question_from(
    alloc: Global,
    path: &str,
    kind: &Kind<'_>,
    text: &str,
    words: &str,
) -> Result<FactSource, NoMemory>
    requires { IsTrue (is_named (kind_view kind.now)) }
    ensures { IfOk result (λ f. fact_view f ≡ described words.now (asked_from path.now (kind_view kind.now) text.now)) }
{
    let limits = at_least(alloc, text)?;
    let words = String::from_str(alloc, words)?;
    let head = start(alloc, path, kind)?;
    Ok(fact(head, limits, None, Some(words)))
}

fn derived(
    alloc: Global,
    figures: &[Figure<'_>],
    path: &str,
    kind: &Kind<'_>,
    form: &Form<'_>,
) -> Result<FactSource, NoMemory>
    requires { IsTrue (is_named (kind_view kind.now)) }
    ensures { IfOk result (λ f. fact_view f ≡ follows path.now (kind_view kind.now)
        (form_view (figures_view figures.now) form.now)) }
{
    let main = build(alloc, figures, form)?;
    match start(alloc, path, kind) {
        Ok(head) => Ok(fact(head, Vec::new(alloc), Some(main), None)),
        Err(NoMemory) => {
            drop(main);
            Err(NoMemory)
        }
    }
}

/// The fact that is written, with the figures of these names.
pub fn fact_of(
    alloc: Global,
    figures: &[Figure<'_>],
    written: &WrittenFact<'_>,
) -> Result<FactSource, NoMemory>
    requires { IsTrue (is_named (written_view (figures_view figures.now) written.now).stated) }
    ensures { IfOk result (λ f. fact_view f ≡ written_view (figures_view figures.now) written.now) }
{
    match written {
        WrittenFact::Asked(path, kind) => {
            Ok(fact(start(alloc, path, kind)?, Vec::new(alloc), None, None))
        }
        WrittenFact::Question(path, kind, words) => question(alloc, path, kind, words),
        WrittenFact::QuestionFrom(path, kind, text, words) => {
            question_from(alloc, path, kind, text, words)
        }
        WrittenFact::Derived(path, kind, form) => derived(alloc, figures, path, kind, form),
    }
}
