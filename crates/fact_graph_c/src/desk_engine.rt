// What stands behind a handle of a desk: the desk, and what the last call said.
ghost use Rattle.fact_graph_c.specs.Checks.{HasStandardChecks};

use crate::text::Text;
use recalc::Recalc;
use shared_desk::Desk;

/// A desk over a dictionary that was accepted with the standard checks, or that names none, and what the last call said.
#[derive(Drop)]
pub struct DeskEngine {
    pub desk: Desk<Recalc>,
    /// Whether a line was `quit`.
    pub over: bool,
    /// What the last call said.
    pub text: Text,
    pub ghost same: { HasStandardChecks desk.session.dict },
}
