// Saves the answers of a session.
ghost use Rattle.std.specs.Prelude.{◌≡◌};
ghost use Rattle.fact_graph_c.specs.Saving.{IsSaved};
ghost use Rattle.fact_graph_c.specs.Saying.{Says};

use crate::engine::Engine;
use crate::outcome::Outcome;
use fg_io::Failed;
use save_file::save;

/// Says the saved text of the answers that stand.
pub fn save_answers(engine: &mut Engine) -> Outcome
    ensures { Says (IsSaved engine.old) engine.old engine.new result }
{
    engine.text.clear();
    match save(
        engine.session.dict(),
        engine.session.answers(),
        &mut engine.text,
    ) {
        Ok(()) => Outcome::Said,
        Err(Failed) => {
            engine.text.clear();
            Outcome::NoMemory
        }
    }
}
