// Saves the answers of a desk.
ghost use Rattle.std.specs.Prelude.{◌≡◌};
ghost use Rattle.fact_graph_c.specs.DeskSaying.{DeskSays, IsDeskSaved};

use crate::desk_engine::DeskEngine;
use crate::outcome::Outcome;
use fg_io::Failed;
use save_file::save;

/// Says the saved text of the answers that stand.
pub fn save_desk(engine: &mut DeskEngine) -> Outcome
    ensures { DeskSays (IsDeskSaved engine.old) engine.old engine.new result }
{
    engine.text.clear();
    let session = engine.desk.session();
    match save(session.dict(), session.answers(), &mut engine.text) {
        Ok(()) => Outcome::Said,
        Err(Failed) => {
            engine.text.clear();
            Outcome::NoMemory
        }
    }
}
