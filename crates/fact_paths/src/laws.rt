// Laws of the texts of paths. Each function's contract is one kind's laws.
ghost use Rattle.fact_paths.specs.Laws.{OnePathOfText, OneTextOfPath, TextOfPath};
ghost use Rattle.fact_paths.specs.Paths.{IsFactPath, IsSlotPath, IsUsePath, SpellsFactPath, SpellsSlotPath, SpellsUsePath, fact_path_text, slot_path_text, use_path_text};

/// A text spells at most one path of a fact, and one text spells each path.
pub fn fact_paths_have_one_text()
    ensures one_path { OnePathOfText SpellsFactPath }
    ensures one_text { OneTextOfPath SpellsFactPath }
    ensures its_text { TextOfPath SpellsFactPath IsFactPath fact_path_text }
{}

/// A text spells at most one path of a use, and one text spells each path.
pub fn use_paths_have_one_text()
    ensures one_path { OnePathOfText SpellsUsePath }
    ensures one_text { OneTextOfPath SpellsUsePath }
    ensures its_text { TextOfPath SpellsUsePath IsUsePath use_path_text }
{}

/// A text spells at most one path of a slot, and one text spells each path.
pub fn slot_paths_have_one_text()
    ensures one_path { OnePathOfText SpellsSlotPath }
    ensures one_text { OneTextOfPath SpellsSlotPath }
    ensures its_text { TextOfPath SpellsSlotPath IsSlotPath slot_path_text }
{}
