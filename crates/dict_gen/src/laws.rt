// Laws of the load: its size, and that its script is read line by line. Each function's contract is a law.
ghost use Rattle.dict_gen.specs.Laws.{ChainHasFacts, ChainHasNodes, ScriptHasLines, ScriptIsRead, ScriptIsShort};

/// How many facts and nodes the dictionary of so many sums has, how many lines its script, and how many bytes at most.
pub fn the_load_has_its_size()
    ensures facts { ChainHasFacts }
    ensures nodes { ChainHasNodes }
    ensures lines { ScriptHasLines }
    ensures bytes { ScriptIsShort }
{}

/// The script is read as its lines.
pub fn the_script_is_read_line_by_line()
    ensures { ScriptIsRead }
{}
