// The cells of global facts, by the facts' numbers, each with its plain number in a column beside it.
ghost use Rattle.std.specs.Prelude.{◌≡◌, ◌<◌, ℕ, None, Some, length, option_copied, option_map, slice_get, slice_index_or, slice_set, IfOk};
ghost use Rattle.cell_store.specs.Contents.{has_other};
ghost use Rattle.cell_store.specs.Globals.{is_global};
ghost use Rattle.cell_store.specs.Numbers.{number_of};

use crate::cell::{Cell, Displaced};
use crate::number::CellNumber;
use fact_values::{NoMemory, Slot};
use std::alloc::Global;
use std::marker::Model;
use std::mem;
use three_state::Res;

/// A cell, or none, for each fact below some number. Contracts see the list of them.
#[derive(Drop)]
pub struct GlobalCells {
    cells: Vec<Option<Cell>>,
    /// What the result of each of these cells is as a plain number.
    numbers: Vec<CellNumber>,
}

impl Model for GlobalCells {
    ghost use Rattle.std.specs.Prelude.{◌≡◌, List, Option, map as each};
    ghost use Rattle.cell_store.specs.Numbers.{number_of};
    ghost use Rattle.cell_store.specs.declared.cell.Cell.{Cell};

    ghost Value = { List (Option Cell) };

    ghost view = { λ globals. globals.cells.items };

    ghost invariant = { λ globals. globals.numbers.items ≡ each number_of globals.cells.items };
}

impl GlobalCells {
    /// There is no fact.
    pub fn new(alloc: Global) -> GlobalCells
        ensures { (fact : ℕ) → slice_index_or result fact None ≡ None }
    {
        GlobalCells {
            cells: Vec::new(alloc),
            numbers: Vec::new(alloc),
        }
    }

    /// No cell for any fact up to this number.
    #[tactic(auto, using(crate::proofs::GlobalLaws::globals, crate::proofs::NumberLaws::numbers))]
    pub fn with_facts(alloc: Global, facts: usize) -> Result<GlobalCells, NoMemory>
        ensures { IfOk result (λ globals. (fact : ℕ) → slice_index_or globals fact None ≡ None) }
    {
        let count = facts.saturating_add(1);
        let mut cells = Vec::with_capacity(alloc, count)?;
        let mut numbers = Vec::with_capacity(alloc, count)?;
        for _n in 0..count {
            cells.push(None)?;
            numbers.push(CellNumber::Other)?;
        }
        Ok(GlobalCells { cells, numbers })
    }

    /// Whether the cell of a slot is among these.
    #[inline(always)]
    pub fn has(&self, slot: Slot) -> bool
        ensures { result ≡ is_global self.now slot }
    {
        (slot.fact as usize) < self.cells.len() && slot.member == 0
    }

    /// The cell of a fact.
    pub fn cell(&self, fact: u32) -> Option<&Cell>
        requires { fact < length self.now }
        ensures { option_copied result ≡ slice_index_or self.now fact None }
    {
        self.cells[fact as usize].as_ref()
    }

    /// What the result of a fact is as a plain number, if the fact is one of these.
    #[inline(always)]
    #[tactic(auto, using(crate::proofs::NumberLaws::numbers))]
    pub fn number(&self, fact: u32) -> Option<CellNumber>
        ensures { result ≡ option_map number_of (slice_get self.now fact) }
    {
        self.numbers.get(fact as usize).copied()
    }

    /// Puts a cell for a fact, and hands back the one that was there, and whether its result was another.
    #[inline(always)]
    #[tactic(auto, using(crate::proofs::NumberLaws::numbers))]
    pub fn put(&mut self, fact: u32, res: Res, stamp: u64) -> Displaced
        requires { fact < length self.old }
        ensures cell { result.cell ≡ slice_index_or self.old fact None }
        ensures moved { result.moved ≡ has_other (slice_index_or self.old fact None) res }
        ensures cells { self.new ≡ slice_set self.old fact (Some (record { res = res; stamp = stamp })) }
    {
        self.numbers[fact as usize] = CellNumber::new(&res);
        displace(&mut self.cells[fact as usize], res, stamp)
    }

    /// Takes the cell of a fact away, and hands it back.
    #[tactic(auto, using(crate::proofs::NumberLaws::numbers))]
    pub fn take(&mut self, fact: u32) -> Option<Cell>
        requires { fact < length self.old }
        ensures old { result ≡ slice_index_or self.old fact None }
        ensures new { self.new ≡ slice_set self.old fact None }
    {
        self.numbers[fact as usize] = CellNumber::Other;
        mem::replace(&mut self.cells[fact as usize], None)
    }
}

// Puts a cell in the place of another one, or of none.
#[inline(always)]
fn displace(place: &mut Option<Cell>, res: Res, stamp: u64) -> Displaced
    ensures cell { result.cell ≡ place.old }
    ensures moved { result.moved ≡ has_other place.old res }
    ensures new { place.new ≡ Some (record { res = res; stamp = stamp }) }
{
    let moved = match place {
        Some(cell) => cell.is_other(&res),
        None => false,
    };
    let cell = mem::replace(place, Some(Cell { res, stamp }));
    Displaced { cell, moved }
}
