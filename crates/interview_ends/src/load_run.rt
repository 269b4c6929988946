// Makes a load, runs its script over its dictionary, and says what was replied.
ghost use Rattle.std.specs.Prelude.{◌≡◌, ◌≤◌, ◌<◌, [], IfOk};
ghost use Rattle.answers.specs.Answered.{start};
ghost use Rattle.graph_session.specs.Rules.{Rules, rules};
ghost use Rattle.fact_watch.specs.Tables.{named_relations};
ghost use Rattle.script_runs.specs.DefinedScript.{defined_script};
ghost use Rattle.script_runs.specs.Meanings.{meaning_of};
ghost use Rattle.interview_ends.specs.Load.{GeneratedAs, IsOfLoad, gen_lines};
ghost use Rattle.interview_ends.specs.CallsFor.{PutsSummary};
ghost use Rattle.interview_ends.specs.Summary.{texts_in};
ghost use Rattle.session_lines.specs.Writing.{pieces_of};
ghost use Rattle.fg_io.specs.SinkState.{output_shown};
ghost use Rattle.fg_io.specs.SourceState.{input_shown};
ghost use Rattle.script_runs.specs.ScriptEnds.{ScriptEnds, script_did};
ghost use Rattle.script_runs.specs.declared.mode.Mode.TheVariants.{Incremental};

use crate::counting::line_count;
use crate::ending::end_by_lines;
use crate::summary::summary;
use dict_gen::make;
use dictionary::Dictionary;
use fact_values::NoMemory;
use fact_watch::WatchTable;
use fg_io::{MemSink, MemSource, Sink};
use recalc::Recalc;
use script_runs::{Status, WatchedSession, run};
use session_lines::Tables;
use std::alloc::Global;
use std::marker::Brand;
use std::sync::ledger::{Blank, Ledger};
use steps::Steps;
use text_checks::CheckTable;

// Runs the script over the dictionary, which names no check. Its steps are counted for nobody else.
fn run_made<L: Ledger>(
    alloc: Global,
    dictionary: Dictionary,
    relations: &WatchTable,
    script: &mut MemSource,
    out: &mut MemSink,
    blank: Blank,
) -> Status
    requires name { blank.name ≡ L.name }
    requires parts { blank.parts ≡ L.parts }
    requires some { 0 < blank.parts }
    requires no_checks { dictionary.checks ≡ [] }
    ensures ends { ScriptEnds (meaning_of (rules dictionary) Incremental (named_relations relations.now) start)
        (script_did (input_shown script.old) (input_shown script.new) (output_shown out.old) (output_shown out.new))
        result }
{
    let checks = CheckTable::new(alloc);
    let tables = Tables {
        checks: &checks,
        relations,
    };
    let mut steps = Steps::<L>::new(blank);
    match WatchedSession::<Recalc>::new(alloc, dictionary) {
        Ok(mut watched) => {
            let status = run(alloc, &mut watched, &tables, script, out, &mut steps);
            drop(watched);
            status
        }
        Err(NoMemory) => Status::NoMemory,
    }
}

// What is replied to the script over the dictionary, which names no check. Where there is no room for it, memory is wanting.
fn replies_to(
    alloc: Global,
    dictionary: Dictionary,
    script: Vec<u8>,
    relations: &WatchTable,
) -> Result<MemSink, NoMemory>
    requires { dictionary.checks ≡ [] }
    ensures replies { IfOk result (λ sink. sink.taken
        ≡ (defined_script (meaning_of (rules dictionary) Incremental (named_relations relations.now) start)
        script.items).text) }
{
    let mut source = MemSource::new(script, u32::MAX, Vec::new(alloc));
    let mut sink = MemSink::new(alloc, u32::MAX, Vec::new(alloc))?;
    let status = run_made::<Brand>(
        alloc,
        dictionary,
        relations,
        &mut source,
        &mut sink,
        Blank::new(1),
    );
    drop(source);
    match status {
        Status::Done => Ok(sink),
        _ => {
            drop(sink);
            Err(NoMemory)
        }
    }
}

// The lines of the summary of the load with `n` sums.
fn summary_of_load(alloc: Global, n: u32, relations: &WatchTable) -> Result<Vec<Vec<u8>>, NoMemory>
    requires some { 1 ≤ n }
    requires most { n ≤ 1000 }
    ensures summary { IfOk result (λ texts. (r : Rules) × IsOfLoad n r
        × (texts_in texts.items ≡ pieces_of (gen_lines r (named_relations relations.now) n))) }
{
    let made = make(alloc, n)?;
    let facts = made.dict.fact_count();
    let nodes = made.dict.node_count();
    let lines = line_count(made.script.as_slice());
    let replies = replies_to(alloc, made.dict, made.script, relations)?;
    summary(alloc, n, facts, nodes, lines, replies.bytes())
}

/// Makes the load with `n` sums, runs its script over its dictionary, and writes the summary of what was replied, each line
/// as one piece.
pub fn run_load<K: Sink>(alloc: Global, n: u32, relations: &WatchTable, out: &mut K) -> Status
    requires some { 1 ≤ n }
    requires most { n ≤ 1000 }
    ensures generated { GeneratedAs (named_relations relations.now) n
        (record { before = K.output out.old; after = K.output out.new }) result }
    ensures puts { PutsSummary K.output (named_relations relations.now) n result out.old out.new }
{
    match summary_of_load(alloc, n, relations) {
        Ok(texts) => end_by_lines(out, texts.as_slice(), Status::Done),
        Err(NoMemory) => Status::NoMemory,
    }
}
