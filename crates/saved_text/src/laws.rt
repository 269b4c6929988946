// Laws of carried texts: each tells its lines. Each function's contract is a law.
ghost use Rattle.saved_text.specs.CarriedText.{CarriedTextsTellLines};

/// A carried text has one number of the next member, and one list of lines.
pub fn carried_texts_tell_their_lines()
    ensures { CarriedTextsTellLines }
{}
