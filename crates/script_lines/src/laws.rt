// Laws of the lines of a script: how it is cut into them, and that a line spells one command at most. Each function's contract is
// a law.
ghost use Rattle.std.specs.Prelude.{◌≡◌, [], ◌∷◌, ◌++◌, List, ℕ};
ghost use Rattle.std.specs.List.{AllByRecursion};
ghost use Rattle.std.specs.Str.{IsUtf8};
ghost use Rattle.script_lines.specs.Commands.{command_text, IsCommand, IsSilent, SpellsCommand};
ghost use Rattle.script_lines.specs.Parsing.{SaysExactly, heard_in};
ghost use Rattle.script_lines.specs.declared.command.Command.{Command};
ghost use Rattle.script_lines.specs.Joined.{joined, last_line};
ghost use Rattle.script_lines.specs.Lines.{ScriptLine, lines_of, ended_of, script_lines, ended_lines, HasNoNewline};

/// A script is cut into the very lines that it was put together from.
pub fn lines_are_those_joined()
    ensures lines { (lines : List (List ℕ)) (last : List ℕ) → AllByRecursion HasNoNewline lines → HasNoNewline last
        → lines_of (joined lines ++ last) ≡ lines ++ last_line last }
    ensures ended { (lines : List (List ℕ)) (last : List ℕ) → AllByRecursion HasNoNewline lines → HasNoNewline last
        → ended_of (joined lines ++ last) ≡ lines }
{}

/// The lines that have ended stay the first lines of the script, whatever follows.
pub fn ended_lines_stand()
    ensures ended { (bytes more : List ℕ)
        → (rest : List ScriptLine) × (ended_lines (bytes ++ more) ≡ ended_lines bytes ++ rest) }
    ensures lines { (bytes more : List ℕ)
        → (rest : List ScriptLine) × (script_lines (bytes ++ more) ≡ ended_lines bytes ++ rest) }
    ensures after_newline { (bytes : List ℕ) → script_lines (bytes ++ 10 ∷ []) ≡ ended_lines (bytes ++ 10 ∷ []) }

    // The lines that are ready of bytes, however they go on, are their ended lines, where what is held has no newline.
    ensures ready { (bytes so_far : List ℕ) (lines : List ScriptLine) → HasNoNewline so_far
        → ((more : List ℕ) → script_lines (bytes ++ more) ≡ lines ++ script_lines (so_far ++ more))
        → lines ≡ ended_lines bytes }
{}

/// A line spells at most one command, and has a reply where it spells one. What is heard in it is what it spells, and
/// each command is spelled by its text with a byte 13 behind it.
pub fn a_line_says_one_thing()
    ensures one_command { (line : List ℕ) (c d : Command) → SpellsCommand line c → SpellsCommand line d → c ≡ d }
    ensures reply { (line : List ℕ) (c : Command) → SpellsCommand line c → ¬ (IsSilent line) }
    ensures text { (command : Command) → IsCommand command → IsUtf8 (command_text command)
        → SpellsCommand (command_text command ++ 13 ∷ []) command }
    ensures heard { (line : List ℕ) → SaysExactly line (heard_in line) }
{}
