// The facts by rising rank.
ghost use Rattle.std.specs.Prelude.{◌≡◌, ◌≤◌, length, IfOk};
ghost use Rattle.dict_order.specs.Ranks.{rank_of};
ghost use Rattle.std.specs.List.{range_with_len};
ghost use Rattle.dictionary.specs.ByRank.{AreByRank};

use fact_values::NoMemory;
use std::alloc::{AllocError, Global};

fn rank_at(ranks: &[u32], fact: u32) -> u32
    ensures { result ≡ rank_of ranks.now fact }
{
    if fact == 0 {
        return 0;
    }
    ranks.get(fact as usize - 1).copied().unwrap_or(0)
}

// The numbers from 1.
fn numbers(alloc: Global, count: u32) -> Result<Vec<u32>, AllocError>
    requires { count ≤ 2000 }
    ensures { IfOk result (λ list. list.items ≡ range_with_len 1 count) }
{
    (1..count + 1).collect(alloc)
}

/// Each fact once, by rising rank, and those of one rank by rising number.
pub fn by_rank(alloc: Global, ranks: &[u32]) -> Result<Vec<u32>, NoMemory>
    requires { length ranks.now ≤ 2000 }
    ensures { IfOk result (λ list. AreByRank ranks.now list.items) }
{
    let mut list = numbers(alloc, ranks.len() as u32)?;
    list.sort_by_key(|fact| rank_at(ranks, *fact))?;
    Ok(list)
}
