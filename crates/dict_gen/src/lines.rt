// The lines of a load's script, and how one is appended to it.
ghost use Rattle.std.specs.Prelude.{◌≡◌, ◌++◌, ◌∷◌, [], replicate, string_bytes, IfOk, OnOk};
ghost use Rattle.script_lines.specs.Joined.{joined};
ghost use Rattle.dict_gen.specs.Script.{get_line as asks, set_line as answers};

use fact_values::NoMemory;
use std::alloc::Global;

/// The line that answers `v` of the member.
pub fn set_line(alloc: Global, member: u32, answer: u32) -> Result<String, NoMemory>
    ensures { IfOk result (λ line. string_bytes line ≡ answers member answer) }
{
    Ok(format!(in alloc; "set /c/#{member}/v {answer}")?)
}

/// The line that asks for the last of `n` sums.
pub fn get_line(alloc: Global, n: u32) -> Result<String, NoMemory>
    ensures { IfOk result (λ line. string_bytes line ≡ asks n) }
{
    Ok(format!(in alloc; "get /s{n}")?)
}

/// Appends the line, and its end.
pub fn put(line: &str, script: &mut Vec<u8>) -> Result<(), NoMemory>
    ensures { OnOk result (script.new.items ≡ script.old.items ++ joined (line.now ∷ [])) }
{
    script.extend_from_slice(line.as_bytes())?;
    script.push(b'\n')?;
    Ok(())
}

/// Appends the line so many times.
pub fn put_times(line: &str, times: u32, script: &mut Vec<u8>) -> Result<(), NoMemory>
    ensures { OnOk result (script.new.items ≡ script.old.items ++ joined (replicate times line.now)) }
{
    for _n in 0..times {
        put(line, script)?;
    }
    Ok(())
}
