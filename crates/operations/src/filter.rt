// A Filter and a Find over the members of a collection.
ghost use Rattle.std.specs.Prelude.{◌≡◌, ℕ, [], ◌∷◌, ◌++◌, List, map, Ok};
ghost use Rattle.fact_values.specs.Members.{IsMemberList};
ghost use Rattle.operations.specs.Sources.{verdict_on_source};
ghost use Rattle.three_state.specs.Folds.{verdict_next};
ghost use Rattle.three_state.specs.Results.{after_verdict, filter_of, is_true, kept as members_kept, members_of, verdict_of};
ghost use Rattle.three_state.specs.declared.res.Res.{Res};

use crate::verdict::{after_verdict, is_true};
use fact_values::{Members, Value, ValueFault};
use std::marker::Model;
use three_state::{Res, Strict};

/// The conditions of a Filter, seen member by member. Contracts see the verdict on the collection
/// and on them. The members that are kept stand elsewhere.
#[derive(Drop)]
pub struct FilterFold {
    verdict: Strict,
}

impl Model for FilterFold {
    ghost use Rattle.three_state.specs.declared.strict.Verdict.{Verdict};

    ghost Value = { Verdict };

    ghost view = { λ f. f.verdict };
}

impl FilterFold {
    /// The collection was seen, and no condition.
    pub fn new(source: &Res) -> FilterFold
        ensures { result ≡ verdict_on_source source.now }
    {
        let mut verdict = Strict::new();
        verdict.see(source);
        FilterFold { verdict }
    }

    /// Sees the condition at the next member, and tells whether the member is kept.
    pub fn see(&mut self, condition: &Res) -> bool
        ensures kept { result ≡ is_true condition.now }
        ensures next { self.new ≡ verdict_next self.old condition.now }
        ensures seen { (rs : List Res) → self.old ≡ verdict_of rs → self.new ≡ verdict_of (rs ++ condition.now ∷ []) }
    {
        self.verdict.see(condition);
        is_true(condition)
    }

    /// The result of the node, with the members that were kept.
    pub fn end(&self, kept: Vec<u32>) -> Res
        requires { IsMemberList kept.items }
        ensures value { result ≡ after_verdict self.now (Ok (Value.Members kept.items)) }
        ensures node { (source : Res) (test : ℕ → Res) → self.now ≡ verdict_of (source ∷ map test (members_of source))
            → kept.items ≡ members_kept test (members_of source) → result ≡ filter_of source test }
    {
        let members = Members::new(kept).unwrap();
        after_verdict(self.verdict.verdict(), Ok(Value::Members(members)))
    }
}
