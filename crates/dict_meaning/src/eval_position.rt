// The members at which an expression is evaluated.
ghost use Rattle.std.specs.Prelude.{◌≡◌};
ghost use Rattle.dict_meaning.specs.Dependencies.{outermost};

use std::marker::Model;

/// Where an expression stands: the member of its slot, and under a condition the base and the
/// condition's member.
#[derive(Clone, Copy)]
pub struct EvalPosition {
    base: u32,
    own: u32,
    inner: u32,
}

impl Model for EvalPosition {
    ghost use Rattle.dict_meaning.specs.Dependencies.{EvalPosition as Position};

    ghost Value = { Position };

    ghost view = { λ p. record { base = p.base; own = p.own; inner = p.inner } };

    ghost inverse = { λ p. record { base = p.base; own = p.own; inner = p.inner } };
}

impl EvalPosition {
    /// Outside of all conditions, at a member.
    pub fn outermost(own: u32) -> EvalPosition
        ensures { result ≡ outermost own }
    {
        EvalPosition {
            base: 0,
            own,
            inner: 0,
        }
    }

    /// Under a condition over a base.
    pub fn under(self, base: u32) -> EvalPosition
        ensures { result ≡ record { base = base; own = self.own; inner = 0 } }
    {
        EvalPosition {
            base,
            own: self.own,
            inner: 0,
        }
    }

    /// At a member of the innermost condition.
    pub fn at(self, inner: u32) -> EvalPosition
        ensures { result ≡ record { base = self.base; own = self.own; inner = inner } }
    {
        EvalPosition {
            base: self.base,
            own: self.own,
            inner,
        }
    }

    /// The base of the innermost condition, and 0 outside of all conditions.
    pub fn base(self) -> u32
        ensures { result ≡ self.base }
    {
        self.base
    }

    /// The member of the slot.
    pub fn own(self) -> u32
        ensures { result ≡ self.own }
    {
        self.own
    }

    /// The member of the innermost condition.
    pub fn inner(self) -> u32
        ensures { result ≡ self.inner }
    {
        self.inner
    }
}
