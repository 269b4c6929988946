// What All and Any share: their rules, with true and false exchanged.
ghost use Rattle.std.specs.Prelude.{◌≡◌, Bool, [], ◌∷◌};
ghost use Rattle.three_state.specs.Junctions.{end_of, nothing_seen, with_operand};
ghost use Rattle.three_state.specs.Results.{is_truth};

use crate::res::{Res, truth};
use fact_values::{Value, ValueFault};

/// What the operands of an All or an Any are. The decider is the truth value that decides: false
/// for All, and true for Any.
#[derive(Clone, Copy)]
pub struct Junction {
    /// Some operand is complete, with the decider.
    decided: bool,
    incomplete: bool,
    /// The first fault.
    fault: Option<ValueFault>,
    /// Some operand is a placeholder, with the decider.
    decided_by_placeholder: bool,
    placeholder: bool,
}

impl Junction {
    pub fn new() -> Junction
        ensures { result ≡ nothing_seen }
    {
        Junction {
            decided: false,
            incomplete: false,
            fault: None,
            decided_by_placeholder: false,
            placeholder: false,
        }
    }

    pub fn see(&mut self, decider: bool, res: &Res)
        ensures { self.new ≡ with_operand decider self.old res.now }
    {
        match res {
            Res::Complete(v) => {
                self.decided = self.decided || is_truth(decider, v);
            }
            Res::Placeholder(v) => {
                self.placeholder = true;
                self.decided_by_placeholder = self.decided_by_placeholder || is_truth(decider, v);
            }
            Res::Incomplete => {
                self.incomplete = true;
            }
            Res::Fault(fault) => {
                if self.fault.is_none() {
                    self.fault = Some(*fault);
                }
            }
        }
    }

    /// The first rule that fits.
    pub fn end(&self, decider: bool) -> Res
        ensures { result ≡ end_of decider self.now }
    {
        if self.decided {
            return Res::Complete(Value::Boolean(decider));
        }
        if self.incomplete {
            return Res::Incomplete;
        }
        if let Some(fault) = self.fault {
            return Res::Fault(fault);
        }
        if self.decided_by_placeholder {
            return Res::Placeholder(Value::Boolean(decider));
        }
        let other = Value::Boolean(!decider);
        if self.placeholder {
            Res::Placeholder(other)
        } else {
            Res::Complete(other)
        }
    }
}

/// Whether the value has this truth.
fn is_truth(wanted: bool, value: &Value) -> bool
    ensures { result ≡ is_truth wanted value.now }
{
    if wanted { truth(value) } else { !truth(value) }
}
