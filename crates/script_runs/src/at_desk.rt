// Answers the lines of a script by a desk: they are those of several parties.
ghost use Rattle.std.specs.Prelude.{◌≡◌, ◌<◌, false};
ghost use Rattle.shared_desk.specs.Desk.{Desk as Defined};
ghost use Rattle.shared_desk.specs.DeskView.{StandsFor, rules_of};
ghost use Rattle.desk_lines.specs.DeskStepping.{desk_at_start, desk_open};
ghost use Rattle.script_runs.specs.Meanings.{of_desk};

use crate::line_handler::LineHandler;
use answers::Answers;
use dictionary::{Dictionary, FactEngine};
use fact_values::NoMemory;
use fg_io::Sink;
use script_lines::Ready;
use session_lines::{Progress, Tables};
use shared_desk::Desk;
use std::alloc::Global;
use std::sync::ledger::Ledger;
use steps::Steps;

impl<E: FactEngine> LineHandler for Desk<E> {
    ghost can_begin = { E.STAMPS };

    ghost is_quiet = { false };

    ghost meaning = { λ r relations a. of_desk r (desk_at_start r a) };

    ghost means = { λ v relations m. (d : Defined) × StandsFor v d × (m ≡ of_desk (rules_of v) (desk_open d)) };

    ghost goes_by = { rules_of };

    ghost changes = { λ v. v.session.changes };

    ghost stands = { λ v. v.session.timeline.now };

    ghost most = { E.most };

    fn begin(alloc: Global, dictionary: Dictionary, answers: Answers) -> Result<Desk<E>, NoMemory> {
        let desk = Desk::<E>::resume(alloc, dictionary, answers)?;
        Ok(desk)
    }

    fn answer_ready<L: Ledger, K: Sink>(
        &mut self,
        alloc: Global,
        tables: &Tables<'_>,
        ready: Ready,
        line: &[u8],
        out: &mut K,
        steps: &mut Steps<L>,
    ) -> Progress {
        desk_lines::answer_ready(alloc, self, tables.checks, ready, line, out, steps)
    }
}
