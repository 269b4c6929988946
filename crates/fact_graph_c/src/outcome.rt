// How a call on a session ended.
ghost use Rattle.std.specs.Prelude.{◌≡◌};
ghost use Rattle.fact_graph_c.specs.Outcomes.{outcome_number};

/// How a call on a session ended.
#[derive(Clone, Copy)]
pub enum Outcome {
    /// What it has to say is the text.
    Said,
    /// A line was `quit`.
    Over,
    /// There was no memory.
    NoMemory,
}

/// Its number for C.
pub fn number_of(outcome: Outcome) -> u32
    ensures { result ≡ outcome_number outcome }
{
    match outcome {
        Outcome::Said => 0,
        Outcome::Over => 1,
        Outcome::NoMemory => 2,
    }
}
