// Laws of the homes of facts and the texts of slots: a member's fact has a writable collection, and a text spells its slot's
// path. Each function's contract is a law.
ghost use Rattle.dict_meaning.specs.Homes.{GlobalHasNoHome, HomeIsCollection};
ghost use Rattle.dict_meaning.specs.SlotText.{TextSpellsPath};

/// A global fact has no home, and that of a member's fact is a writable collection.
pub fn homes_are_collections()
    ensures global { GlobalHasNoHome }
    ensures member { HomeIsCollection }
{}

/// What is printed of a slot spells its path.
pub fn slot_texts_spell_paths()
    ensures { TextSpellsPath }
{}
