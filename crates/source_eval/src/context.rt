// What an expression is evaluated over.
ghost use Rattle.std.specs.Prelude.{◌≡◌};
ghost use Rattle.dict_source.specs.Dictionary.{dictionary_view};
ghost use Rattle.evaluation.specs.Results.{result_at};
ghost use Rattle.source_eval.specs.Context.{Context};

use dict_source::DictSource;
use three_state::Res;

/// What an expression of a fact is evaluated over: the dictionary, the number of the fact, and the results that are known.
pub trait EvalContext {
    /// The same, as definitions see it.
    ghost meaning: { Self → Context };

    /// The dictionary.
    fn source(&self) -> &DictSource
        ensures { dictionary_view result.now ≡ (meaning self.now).tree };

    /// The number of the fact.
    fn fact(&self) -> u32
        ensures { result ≡ (meaning self.now).fact };

    /// The result of a fact at a member. A slot that has none counts as incomplete.
    fn result_at(&self, fact: Option<u32>, member: u32) -> &Res
        ensures { result.now ≡ result_at (meaning self.now).results fact member };
}
