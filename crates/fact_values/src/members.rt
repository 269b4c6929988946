// Lists of a collection's members.
ghost use Rattle.std.specs.Prelude.{◌≡◌, ◌↔◌, IsSome, IfSome, IfOk};
ghost use Rattle.std.specs.List.{list_all};
ghost use Rattle.fact_values.specs.Members.{IsMemberList, are_distinct as distinct, is_member as member_number, is_member_list as member_list};

use crate::memory::NoMemory;
use std::alloc::Global;
use std::marker::Model;

/// The most members of a list.
const MOST_MEMBERS: usize = 100;

/// The greatest number of a member.
const LAST_MEMBER: u32 = 1_000_000;

/// A list of at most 100 distinct members, each a number from 1 to 1,000,000.
#[derive(Debug, Drop)]
pub struct Members {
    list: Vec<u32>,
}

impl Model for Members {
    ghost use Rattle.std.specs.Prelude.{List, ℕ};
    ghost use Rattle.fact_values.specs.Members.{IsMemberList};

    ghost Value = { List ℕ };

    ghost view = { λ m. m.list.items };

    ghost invariant = { λ m. IsMemberList m.list.items };
}

impl Members {
    /// The list, or `None` where it is too long, repeats a number or has one that is no member's.
    pub fn new(list: Vec<u32>) -> Option<Members>
        ensures accepted { IsSome result ↔ IsMemberList list.items }
        ensures value { IfSome result (λ m. m ≡ list.items) }
    {
        if is_member_list(list.as_slice()) {
            Some(Members { list })
        } else {
            None
        }
    }

    /// The members in their order.
    pub fn as_slice(&self) -> &[u32]
        ensures value { result.now ≡ self.now }
        ensures members { IsMemberList result.now }
    {
        self.list.as_slice()
    }

    /// An equal list.
    pub(crate) fn copy(&self, alloc: Global) -> Result<Members, NoMemory>
        ensures { IfOk result (λ m. m ≡ self.now) }
    {
        let list = Vec::from_slice(alloc, self.list.as_slice())?;
        Ok(Members { list })
    }
}

/// Whether a value may hold the list.
fn is_member_list(list: &[u32]) -> bool
    ensures { result ≡ member_list list.now }
{
    list.len() <= MOST_MEMBERS && are_members(list) && are_distinct(list)
}

/// Whether a member may have the number.
fn is_member(n: u32) -> bool
    ensures { result ≡ member_number n }
{
    1 <= n && n <= LAST_MEMBER
}

/// Whether each number may be a member's.
fn are_members(list: &[u32]) -> bool
    ensures { result ≡ list_all member_number list.now }
{
    list.iter().all(|n| is_member(*n))
}

/// Whether no number stands in the list twice.
fn are_distinct(list: &[u32]) -> bool
    ensures { result ≡ distinct list.now }
{
    for (i, n) in list.iter().enumerate() {
        if list[i + 1..].contains(n) {
            return false;
        }
    }
    true
}
