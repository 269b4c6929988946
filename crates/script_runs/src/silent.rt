// Answers the lines of a script where nobody reads the replies.
ghost use Rattle.std.specs.Prelude.{◌≡◌, ◌<◌, None, true};
ghost use Rattle.script_runs.specs.Meanings.{Meaning, silently};

use crate::line_handler::LineHandler;
use answers::Answers;
use dictionary::Dictionary;
use fact_values::NoMemory;
use fg_io::{Failed, Sink};
use script_lines::Ready;
use session_lines::{Progress, Tables};
use std::alloc::Global;
use std::sync::ledger::Ledger;
use steps::Steps;

/// Takes every piece, and keeps nothing.
#[derive(Drop)]
pub struct Silent;

impl Sink for Silent {
    ghost use Rattle.fg_io.specs.Outside.{follows_any};

    ghost output = { λ sink. record { taken = None; faults = 0; follows = follows_any } };

    fn put(&mut self, piece: &[u8]) -> Result<usize, Failed> {
        Ok(piece.len())
    }
}

/// Answers as another does, and tells nobody what is replied.
#[derive(Drop)]
pub struct Silenced<T: LineHandler> {
    /// The other.
    pub handler: T,
}

impl<T: LineHandler> LineHandler for Silenced<T> {
    ghost can_begin = { T.can_begin };

    ghost is_quiet = { true };

    ghost meaning = { λ r relations a. silently (T.meaning r relations a) };

    ghost means = { λ s relations m. (told : Meaning) × T.means s.handler relations told × (m ≡ silently told) };

    ghost goes_by = { λ s. T.goes_by s.handler };

    ghost changes = { λ s. T.changes s.handler };

    ghost stands = { λ s. T.stands s.handler };

    ghost most = { T.most };

    fn begin(
        alloc: Global,
        dictionary: Dictionary,
        answers: Answers,
    ) -> Result<Silenced<T>, NoMemory> {
        let handler = T::begin(alloc, dictionary, answers)?;
        Ok(Silenced { handler })
    }

    fn answer_ready<L: Ledger, K: Sink>(
        &mut self,
        alloc: Global,
        tables: &Tables<'_>,
        ready: Ready,
        line: &[u8],
        _out: &mut K,
        steps: &mut Steps<L>,
    ) -> Progress {
        let mut silent = Silent;
        self.handler
            .answer_ready(alloc, tables, ready, line, &mut silent, steps)
    }
}
