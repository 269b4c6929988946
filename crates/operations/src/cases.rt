// Evaluates a Switch over its cases.
ghost use Rattle.std.specs.Prelude.{◌≡◌};
ghost use Rattle.operations.specs.CaseSteps.{case_step, truth_step};
ghost use Rattle.three_state.specs.Folds.{down_unless};

use fact_values::Value;
use three_state::{Res, down, finish, truth};

/// What a condition says of its case: the result behind it in a Switch, or the member that a Find
/// judges. The flags say that no condition so far rested on a placeholder.
#[derive(Drop)]
pub enum CaseStep {
    /// The case isn't taken: the next one is judged.
    Next(bool),
    /// The case is taken.
    Take(bool),
    /// No case is taken any more: the result.
    End(Res),
}

/// What the condition says of its case. The flag says that no condition before it rested on a
/// placeholder.
#[tactic(auto, unfolding(crate::specs::CaseSteps::case_step))]
pub fn case_step(complete: bool, condition: &Res) -> CaseStep
    ensures { result ≡ case_step complete condition.now }
{
    match condition {
        Res::Complete(v) => truth_step(complete, truth(v)),
        Res::Placeholder(v) => truth_step(false, truth(v)),
        Res::Incomplete => CaseStep::End(Res::Incomplete),
        Res::Fault(fault) => CaseStep::End(Res::Fault(*fault)),
    }
}

fn truth_step(complete: bool, truth: bool) -> CaseStep
    ensures { result ≡ truth_step complete truth }
{
    if truth {
        CaseStep::Take(complete)
    } else {
        CaseStep::Next(complete)
    }
}

/// The result of a case that is taken, as a placeholder at most where the flag isn't set.
pub fn taken(complete: bool, case: Res) -> Res
    ensures { result ≡ down_unless complete case }
{
    if complete { case } else { down(case) }
}

/// The result of a Find that takes this member.
pub fn found(complete: bool, member: u32) -> Res
    ensures { result ≡ down_unless complete (Res.Complete (Value.Item member)) }
{
    finish(complete, Ok(Value::Item(member)))
}
