// What stands behind a handle of a session: the session, its watches, and what the last call said.
ghost use Rattle.fact_graph_c.specs.Checks.{HasStandardChecks};

use crate::text::Text;
use fact_watch::Watches;
use graph_session::Session;
use recalc::Recalc;

/// A session over a dictionary that was accepted with the standard checks, or that names none, its watches, and what the last
/// call said.
#[derive(Drop)]
pub struct Engine {
    pub session: Session<Recalc>,
    pub watches: Watches,
    /// Whether a line was `quit`.
    pub over: bool,
    /// What the last call said.
    pub text: Text,
    pub ghost same: { HasStandardChecks session.dict },
}
