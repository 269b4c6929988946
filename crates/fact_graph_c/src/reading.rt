// Says which slots a slot reads.
ghost use Rattle.std.specs.Prelude.{◌≡◌, ◌≤◌, [], IfOk, IsTrue, length};
ghost use Rattle.script_lines.specs.Parsing.{command as heard};
ghost use Rattle.session_lines.specs.declared.progress.Progress.TheVariants.{More};
ghost use Rattle.graph_session.specs.Rules.{rules};
ghost use Rattle.graph_session.specs.SessionView.{session_state};
ghost use Rattle.fact_graph_c.specs.SlotReads.{IsReads, path_heard, path_of, reads_of_path};
ghost use Rattle.fact_graph_c.specs.Saying.{Says};

use crate::engine::Engine;
use crate::outcome::Outcome;
use crate::text::Text;
use fact_paths::SlotPath;
use fact_values::NoMemory;
use graph_session::Session;
use recalc::Recalc;
use script_lines::{Command, LineFault, command_of};
use session_lines::{Progress, answer_reads, write_ended};
use std::alloc::Global;
use value_text::Line;

/// The most bytes of a slot's path. No path has as many.
const PATH: usize = 1_000;

// The path of `get`, and none of another command.
fn path_of_get(command: Command) -> Option<SlotPath>
    ensures { result ≡ path_heard (heard command) }
{
    match command {
        Command::Get(path) => Some(path),
        _ => None,
    }
}

// The path that the text is.
fn read_path(alloc: Global, text: &[u8]) -> Result<Option<SlotPath>, NoMemory>
    ensures { IfOk result (λ path. path ≡ path_of text.now) }
{
    if text.len() > PATH {
        return Ok(None);
    }
    let mut line = Line::new();
    line.push(b"get ");
    line.push(text);
    match command_of(alloc, line.bytes()) {
        Ok(Some(command)) => Ok(path_of_get(command)),
        Ok(None) => Ok(None),
        Err(LineFault::BadLine) => Ok(None),
        Err(LineFault::NoMemory) => Err(NoMemory),
    }
}

fn is_more(progress: Progress) -> bool
    ensures { IsTrue result → progress ≡ More }
{
    match progress {
        Progress::More => true,
        Progress::Over => false,
        Progress::Unwritten => false,
        Progress::OutOfMemory => false,
    }
}

// Puts which slots the slot of the path reads, or why there is no such slot. Tells whether all was put.
fn put_reads(
    alloc: Global,
    session: &Session<Recalc>,
    path: Option<SlotPath>,
    text: &mut Text,
) -> bool
    requires { text.old.bytes.items ≡ [] }
    ensures { IsTrue result → text.new.bytes.items ≡ reads_of_path (rules session.now.dict) (session_state session.now)
        path }
{
    match path {
        Some(path) => is_more(answer_reads(alloc, session, &path, text)),
        None => is_more(write_ended(b"refused 1 BadLine\n", text)),
    }
}

/// Says the paths of the slots that a slot reads, each in a line. Where the text names no slot, it says why, as `get` does.
pub fn say_reads(alloc: Global, engine: &mut Engine, slot: &[u8]) -> Outcome
    ensures { Says (IsReads engine.old slot.now) engine.old engine.new result }
{
    engine.text.clear();
    match read_path(alloc, slot) {
        Err(NoMemory) => Outcome::NoMemory,
        Ok(path) => {
            if put_reads(alloc, &engine.session, path, &mut engine.text) {
                return Outcome::Said;
            }
            engine.text.clear();
            Outcome::NoMemory
        }
    }
}
