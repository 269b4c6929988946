// Laws of commands: wherever they lead, the answers fit the dictionary. Each function's contract is a law.
ghost use Rattle.graph_session.specs.Run.{CommandsLeadToFit};

/// From the start, wherever commands lead, the answers fit the dictionary, and so they are an extension of themselves.
pub fn commands_lead_to_answers_that_fit()
    ensures { CommandsLeadToFit }
{}
