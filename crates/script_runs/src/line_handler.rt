// The trait of whoever answers the lines of a script.
ghost use Rattle.std.specs.Prelude.{◌≡◌, ◌≢◌, ℕ, Bool, true, List, ◌+◌, ◌<◌, ◌≤◌, ◌^◌, IfOk, length};
ghost use Rattle.text_checks.specs.Tables.{named_checks};
ghost use Rattle.fact_watch.specs.Tables.{named_relations};
ghost use Rattle.script_lines.specs.Lines.{ready_lines};
ghost use Rattle.answers.specs.Answered.{Answered};
ghost use Rattle.answers.specs.Meaning.{answered};
ghost use Rattle.dict_meaning.specs.Accepted.{Accepted};
ghost use Rattle.dictionary.specs.AcceptedParts.{Named, accepted};
ghost use Rattle.dict_meaning.specs.Fits.{AnswersFit};
ghost use Rattle.graph_session.specs.Refusals.{SameChecks};
ghost use Rattle.graph_session.specs.Rules.{Rules, rules};
ghost use Rattle.script_runs.specs.Meanings.{IsBeginning, Meaning};
ghost use Rattle.session_lines.specs.declared.progress.Progress.TheVariants.{Unwritten};
ghost use Rattle.script_runs.specs.AnsweredLines.{LineOutputAs};

use answers::Answers;
use dictionary::Dictionary;
use fact_values::NoMemory;
use fg_io::Sink;
use script_lines::Ready;
use session_lines::{Progress, Tables};
use std::alloc::Global;
use std::sync::ledger::Ledger;
use steps::Steps;

/// Answers the lines of a script one by one, and keeps where they lead.
pub trait LineHandler: Drop {
    /// Whether it can begin: a desk needs an engine with stamps.
    ghost can_begin: { Bool };

    /// Whether nobody reads the replies: then it tells nothing.
    ghost is_quiet: { Bool };

    /// What the lines of a script mean that begins over these rules with these answers, where slots may be watched by these relations.
    ghost meaning: { Rules → List Named → Answered → Meaning };

    /// What the lines from here on mean, where slots may be watched by these relations.
    ghost means: { Self → List Named → Meaning → Type 0 };

    /// What it goes by.
    ghost goes_by: { Self → Rules };

    /// How many changes were made.
    ghost changes: { Self → ℕ };

    /// The answers that stand.
    ghost stands: { Self → Answered };

    /// The most steps that a change from answers to answers takes.
    ghost most: { Accepted → Answered → Answered → ℕ };

    /// Begins with these answers, without a history.
    fn begin(alloc: Global, dictionary: Dictionary, answers: Answers) -> Result<Self, NoMemory>
        requires can_begin { can_begin ≡ true }
        requires fit { AnswersFit (accepted dictionary).tree (answered answers) }
        ensures begins { (relations : List Named) → IsBeginning (meaning (rules dictionary) relations (answered answers)) }
        ensures meant { IfOk result (λ handler. (relations : List Named) → means handler relations (meaning (rules dictionary) relations
            (answered answers))) }
        ensures same_rules { IfOk result (λ handler. goes_by handler ≡ rules dictionary) }
        ensures unchanged { IfOk result (λ handler. changes handler ≡ 0) };

    /// Answers the line that is ready, if there is one. It makes one change at most.
    fn answer_ready<L: Ledger, K: Sink>(
        &mut self,
        alloc: Global,
        tables: &Tables<'_>,
        ready: Ready,
        line: &[u8],
        out: &mut K,
        steps: &mut Steps<L>,
    ) -> Progress
        requires short { length line.now ≤ 4096 }
        requires same_checks { SameChecks (goes_by self.old) (named_checks tables.now.checks.now) }
        requires few { changes self.old < 2 ^ 63 }
        ensures output { (m : Meaning) → means self.old (named_relations tables.now.relations.now) m
            → LineOutputAs (means self.new (named_relations tables.now.relations.now)) (K.output out.old) (K.output out.new) m
            (stands self.new) (ready_lines ready line.now) result }
        ensures same_rules { goes_by self.new ≡ goes_by self.old }
        ensures few { changes self.new ≤ changes self.old + 1 }
        ensures later { (K.output out.old).faults ≤ (K.output out.new).faults }
        ensures quiet { is_quiet ≡ true → out.new ≡ out.old }
        ensures unfailing { is_quiet ≡ true → (m : Meaning) → means self.old (named_relations tables.now.relations.now) m
            → result ≢ Unwritten }
        ensures steps { (m : Meaning) → means self.old (named_relations tables.now.relations.now) m
            → steps.new ≤ steps.old + m.steps most (ready_lines ready line.now) };
}
