// Makes the script of a load.
ghost use Rattle.std.specs.Prelude.{◌≡◌, ◌<◌, ◌≤◌, ◌++◌, codes, IfOk, OnOk};
ghost use Rattle.script_lines.specs.Joined.{joined};
ghost use Rattle.dict_gen.specs.Script.{member_count as members_of, moves, round, rounds, script as load};

use crate::lines::{get_line, put, put_times, set_line};
use fact_values::NoMemory;
use std::alloc::Global;

/// The most members that are added.
const MOST_MEMBERS: u32 = 100;

// How many members are added.
fn member_count(n: u32) -> u32
    ensures { result ≡ members_of n }
{
    if n < MOST_MEMBERS { n } else { MOST_MEMBERS }
}

// Appends the round behind so many.
fn put_round(
    alloc: Global,
    n: u32,
    members: u32,
    before: u32,
    script: &mut Vec<u8>,
) -> Result<(), NoMemory>
    requires some { 0 < members }
    requires most { before < 1000 }
    ensures { OnOk result (script.new.items ≡ script.old.items ++ joined (round members n before)) }
{
    let set = set_line(alloc, 1 + before % members, 1 + before)?;
    let get = get_line(alloc, n)?;
    put(set.as_str(), script)?;
    put(get.as_str(), script)
}

// Appends all rounds.
fn put_rounds(alloc: Global, n: u32, members: u32, script: &mut Vec<u8>) -> Result<(), NoMemory>
    requires some { 0 < members }
    requires most { n ≤ 1000 }
    ensures { OnOk result (script.new.items ≡ script.old.items ++ joined (rounds members n n)) }
{
    for before in 0..n {
        put_round(alloc, n, members, before, script)?;
    }
    Ok(())
}

// Appends the line `n` times, and the line that asks.
fn put_moves(alloc: Global, line: &str, n: u32, script: &mut Vec<u8>) -> Result<(), NoMemory>
    ensures { OnOk result (script.new.items ≡ script.old.items ++ joined (moves line.now n)) }
{
    put_times(line, n, script)?;
    let get = get_line(alloc, n)?;
    put(get.as_str(), script)
}

/// The script over `n` sums.
pub fn script(alloc: Global, n: u32) -> Result<Vec<u8>, NoMemory>
    requires some { 1 ≤ n }
    requires most { n ≤ 1000 }
    ensures { IfOk result (λ text. text.items ≡ load n) }
{
    let mut text = Vec::new(alloc);
    let members = member_count(n);
    put_times("add /c", members, &mut text)?;
    put_rounds(alloc, n, members, &mut text)?;
    put_moves(alloc, "undo", n, &mut text)?;
    put_moves(alloc, "redo", n, &mut text)?;
    Ok(text)
}
