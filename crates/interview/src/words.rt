// The words of the command line, and what each form of them asks for.
ghost use Rattle.std.specs.Prelude.{◌≡◌, [], ◌∷◌, codes};
ghost use Rattle.interview.specs.Words.{IsForm, texts};

use built_in::{BuiltIn, program_income_named};
use fact_paths::read_member_number;
use interview_ends::{Beginning, Origin};
use script_runs::Mode;
use tax_2023::year_named;

/// What the words of the command line ask for.
#[derive(Clone, Copy)]
pub enum Form<'a> {
    /// `run NAME`, `run-plain NAME`, `desk NAME`, `load NAME SAVED`, `carry NAME SAVED`, `year Y`, `carry-year Y SAVED` or
    /// `income Y`: to run a script over this dictionary, from these answers, in this mode.
    Run(Mode, Origin<'a>, Beginning<'a>),
    /// `check NAME`: to say whether the dictionary of this name is accepted.
    Check(&'a str),
    /// `gen N`: to run the script of the load with so many sums over its dictionary.
    Gen(u32),
    /// `save NAME` or `save-year Y`: to run a script over this dictionary without its replies, and to save the answers.
    Save(Origin<'a>),
    /// Nothing, since the words have no form.
    Unknown,
}

// What `year` and this word ask for.
fn form_of_year<'a>(year: &str) -> Form<'a>
    ensures { IsForm (codes "year" ∷ year.now ∷ []) result }
{
    match year_named(year) {
        Some(year) => Form::Run(
            Mode::Incremental,
            Origin::BuiltIn(BuiltIn::Year(year)),
            Beginning::Unanswered,
        ),
        None => Form::Unknown,
    }
}

// What `income` and this word ask for.
fn form_of_income<'a>(year: &str) -> Form<'a>
    ensures { IsForm (codes "income" ∷ year.now ∷ []) result }
{
    match program_income_named(year) {
        Some(year) => Form::Run(
            Mode::Incremental,
            Origin::BuiltIn(BuiltIn::Income(year)),
            Beginning::Unanswered,
        ),
        None => Form::Unknown,
    }
}

// What `gen` and this word ask for.
fn form_of_gen<'a>(number: &str) -> Form<'a>
    ensures { IsForm (codes "gen" ∷ number.now ∷ []) result }
{
    match read_member_number(number) {
        Some(n) => {
            if n <= 1000 {
                Form::Gen(n)
            } else {
                Form::Unknown
            }
        }
        None => Form::Unknown,
    }
}

// What `save-year` and this word ask for.
fn form_of_save_year<'a>(year: &str) -> Form<'a>
    ensures { IsForm (codes "save-year" ∷ year.now ∷ []) result }
{
    match year_named(year) {
        Some(year) => Form::Save(Origin::BuiltIn(BuiltIn::Year(year))),
        None => Form::Unknown,
    }
}

// What two words ask for.
fn form_of_two<'a>(command: &str, word: &'a str) -> Form<'a>
    ensures { IsForm (command.now ∷ word.now ∷ []) result }
{
    match command {
        "run" => Form::Run(Mode::Incremental, Origin::File(word), Beginning::Unanswered),
        "run-plain" => Form::Run(Mode::Plain, Origin::File(word), Beginning::Unanswered),
        "desk" => Form::Run(Mode::Desk, Origin::File(word), Beginning::Unanswered),
        "check" => Form::Check(word),
        "year" => form_of_year(word),
        "gen" => form_of_gen(word),
        "income" => form_of_income(word),
        "save" => Form::Save(Origin::File(word)),
        "save-year" => form_of_save_year(word),
        _ => Form::Unknown,
    }
}

// What `carry-year` and these words ask for.
fn form_of_carried_year<'a>(year: &str, saved: &'a str) -> Form<'a>
    ensures { IsForm (codes "carry-year" ∷ year.now ∷ saved.now ∷ []) result }
{
    match year_named(year) {
        Some(year) => Form::Run(
            Mode::Incremental,
            Origin::BuiltIn(BuiltIn::Year(year)),
            Beginning::Carry(saved),
        ),
        None => Form::Unknown,
    }
}

// What three words ask for.
#[tactic(auto, using(crate::proofs::WordLaws::others_of_three))]
fn form_of_three<'a>(command: &str, word: &'a str, saved: &'a str) -> Form<'a>
    ensures { IsForm (command.now ∷ word.now ∷ saved.now ∷ []) result }
{
    match command {
        "load" => Form::Run(
            Mode::Incremental,
            Origin::File(word),
            Beginning::Load(saved),
        ),
        "carry" => Form::Run(
            Mode::Incremental,
            Origin::File(word),
            Beginning::Carry(saved),
        ),
        "carry-year" => form_of_carried_year(word, saved),
        _ => Form::Unknown,
    }
}

/// What the words ask for.
pub fn form_of(words: &[String]) -> Form<'_>
    ensures { IsForm (texts words.now) result }
{
    match words {
        [command, word] => form_of_two(command.as_str(), word.as_str()),
        [command, word, saved] => form_of_three(command.as_str(), word.as_str(), saved.as_str()),
        _ => Form::Unknown,
    }
}
