// All and Any over results that are seen one by one.
ghost use Rattle.std.specs.Prelude.{◌≡◌, [], ◌∷◌, ◌++◌, List, true, false};
ghost use Rattle.three_state.specs.Folds.{junction_next};
ghost use Rattle.three_state.specs.Results.{all_of, any_of};
ghost use Rattle.three_state.specs.declared.res.Res.{Res};

use crate::junction::Junction;
use crate::res::Res;
use std::marker::Model;

/// The operands of an All, seen one by one. Contracts see the All of those seen.
#[derive(Drop)]
pub struct AllFold {
    seen: Junction,
}

impl Model for AllFold {
    ghost use Rattle.std.specs.Prelude.{false};
    ghost use Rattle.three_state.specs.Junctions.{end_of};
    ghost use Rattle.three_state.specs.declared.res.Res.{Res};

    ghost Value = { Res };

    ghost view = { λ fold. end_of false fold.seen };
}

impl AllFold {
    /// No operand was seen.
    pub fn new() -> AllFold
        ensures { result ≡ all_of [] }
    {
        AllFold {
            seen: Junction::new(),
        }
    }

    /// Sees the next operand. A value that isn't Boolean counts as false.
    pub fn see(&mut self, res: &Res)
        ensures next { self.new ≡ junction_next false self.old res.now }
        ensures seen { (rs : List Res) → self.old ≡ all_of rs → self.new ≡ all_of (rs ++ res.now ∷ []) }
    {
        self.seen.see(false, res);
    }

    /// The All of the operands seen.
    pub fn end(&self) -> Res
        ensures { result ≡ self.now }
    {
        self.seen.end(false)
    }
}

/// The operands of an Any, seen one by one. Contracts see the Any of those seen.
#[derive(Drop)]
pub struct AnyFold {
    seen: Junction,
}

impl Model for AnyFold {
    ghost use Rattle.std.specs.Prelude.{true};
    ghost use Rattle.three_state.specs.Junctions.{end_of};
    ghost use Rattle.three_state.specs.declared.res.Res.{Res};

    ghost Value = { Res };

    ghost view = { λ fold. end_of true fold.seen };
}

impl AnyFold {
    /// No operand was seen.
    pub fn new() -> AnyFold
        ensures { result ≡ any_of [] }
    {
        AnyFold {
            seen: Junction::new(),
        }
    }

    /// Sees the next operand. A value that isn't Boolean counts as false.
    pub fn see(&mut self, res: &Res)
        ensures next { self.new ≡ junction_next true self.old res.now }
        ensures seen { (rs : List Res) → self.old ≡ any_of rs → self.new ≡ any_of (rs ++ res.now ∷ []) }
    {
        self.seen.see(true, res);
    }

    /// The Any of the operands seen.
    pub fn end(&self) -> Res
        ensures { result ≡ self.now }
    {
        self.seen.end(true)
    }
}
