// Answers the lines of a script by a session: they are those of one person.
ghost use Rattle.std.specs.Prelude.{◌≡◌, ◌<◌, true, false, IfOk};
ghost use Rattle.answers.specs.Answered.{start};
ghost use Rattle.graph_session.specs.Rules.{rules};
ghost use Rattle.session_lines.specs.Answering.{line_state_of};
ghost use Rattle.graph_session.specs.SessionView.{start_at};
ghost use Rattle.fact_watch.specs.Watching.{nothing_watched};
ghost use Rattle.session_lines.specs.Stepping.{open_at};
ghost use Rattle.script_runs.specs.Meanings.{of_answers, of_session};

use crate::line_handler::LineHandler;
use answers::Answers;
use dictionary::{Dictionary, FactEngine};
use fact_values::NoMemory;
use fact_watch::Watches;
use fg_io::Sink;
use graph_session::Session;
use script_lines::Ready;
use session_lines::{Progress, Tables};
use std::alloc::Global;
use std::sync::ledger::Ledger;
use steps::Steps;

/// A session, and what is watched.
#[derive(Drop)]
pub struct WatchedSession<E: FactEngine> {
    /// The session.
    pub session: Session<E>,
    /// The watches.
    pub watches: Watches,
}

impl<E: FactEngine> WatchedSession<E> {
    /// Nothing was answered, and nothing is watched.
    pub fn new(alloc: Global, dictionary: Dictionary) -> Result<WatchedSession<E>, NoMemory>
        ensures session { IfOk result (λ a. a.session ≡ start_at dictionary start E.STAMPS) }
        ensures watches { IfOk result (λ a. a.watches ≡ nothing_watched) }
    {
        let session = Session::new(alloc, dictionary)?;
        let watches = Watches::new(alloc);
        Ok(WatchedSession { session, watches })
    }
}

impl<E: FactEngine> LineHandler for WatchedSession<E> {
    ghost can_begin = { true };

    ghost is_quiet = { false };

    ghost meaning = { λ r relations a. of_answers r E.STAMPS relations a };

    ghost means = { λ a relations m. m ≡ of_session (rules a.session.dict)
        (open_at (line_state_of a.session relations a.watches)) };

    ghost goes_by = { λ a. rules a.session.dict };

    ghost changes = { λ a. a.session.changes };

    ghost stands = { λ a. a.session.timeline.now };

    ghost most = { E.most };

    fn begin(
        alloc: Global,
        dictionary: Dictionary,
        answers: Answers,
    ) -> Result<WatchedSession<E>, NoMemory> {
        let session = Session::resume(alloc, dictionary, answers)?;
        let watches = Watches::new(alloc);
        Ok(WatchedSession { session, watches })
    }

    fn answer_ready<L: Ledger, K: Sink>(
        &mut self,
        alloc: Global,
        tables: &Tables<'_>,
        ready: Ready,
        line: &[u8],
        out: &mut K,
        steps: &mut Steps<L>,
    ) -> Progress {
        session_lines::answer_ready(
            alloc,
            &mut self.session,
            &mut self.watches,
            tables,
            ready,
            line,
            out,
            steps,
        )
    }
}
