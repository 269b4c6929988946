// Laws of the printed form: it spells the dictionary. Each function's contract is a law.
ghost use Rattle.dict_print.specs.Laws.{PrintedIsShallow, PrintedSpells};

/// What is printed of a dictionary spells it, and nests no deeper than a reader of JSON takes.
pub fn printed_form_spells()
    ensures spelled { PrintedSpells }
    ensures shallow { PrintedIsShallow }
{}
