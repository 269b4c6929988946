//! Tests of `node_eval`: nodes over hand-made cells.
ghost use Rattle.std.specs.Prelude.{◌≡◌, ◌+◌, ◌<◌, slice_get};
ghost use Rattle.node_eval.specs.Globals.{amount_of, global_result, whole_of};

use dict_source::{ManyOp, PickOp};
use fact_values::{Dollar, Members, NoMemory, Slot, Value, Whole};
use node_eval::{Cells, Node, NodeRead, ResolvedPath, eval};
use std::alloc::Global;
use std::marker::Brand;
use std::sync::ledger::{Blank, Ledger};
use std::test::Fail;
use steps::Steps;
use three_state::Res;

/// Cells in a row: that of fact n at member m is the one with the number n + m, from 0.
#[derive(Drop)]
struct Row {
    cells: Vec<Res>,
}

impl Cells for Row {
    ghost use Rattle.std.specs.Prelude.{◌≡◌, ◌+◌, option_copied, slice_get};

    ghost results = { λ r s. slice_get r.cells.items (s.fact + s.member) };

    fn cell(&self, slot: Slot) -> Option<&Res>
        ensures { option_copied result ≡ slice_get self.now.cells.items (slot.fact + slot.member) }
    {
        self.cells.get(slot.fact as usize + slot.member as usize)
    }

    fn amount(&self, fact: u32) -> Option<Dollar>
        ensures { result ≡ amount_of (global_result (λ s. slice_get self.now.cells.items (s.fact + s.member)) fact) }
    {
        amount_in(self.cell(Slot { fact, member: 0 })?)
    }

    fn whole(&self, fact: u32) -> Option<Whole>
        ensures { result ≡ whole_of (global_result (λ s. slice_get self.now.cells.items (s.fact + s.member)) fact) }
    {
        whole_in(self.cell(Slot { fact, member: 0 })?)
    }
}

fn amount_in(res: &Res) -> Option<Dollar>
    ensures { result ≡ amount_of res.now }
{
    match res {
        Res::Complete(Value::Dollar(amount)) => Some(*amount),
        _ => None,
    }
}

fn whole_in(res: &Res) -> Option<Whole>
    ensures { result ≡ whole_of res.now }
{
    match res {
        Res::Complete(Value::Int(number)) => Some(*number),
        _ => None,
    }
}

// What the node gives, where nobody counts the steps.
fn counted<L: Ledger>(
    alloc: Global,
    node: &Node,
    cells: &Row,
    blank: Blank,
) -> Result<Res, NoMemory>
    requires name { blank.name ≡ L.name }
    requires parts { blank.parts ≡ L.parts }
    requires some { 0 < blank.parts }
{
    let mut steps = Steps::<L>::new(blank);
    eval(alloc, node, cells, 0, 0, &mut steps)
}

fn gives(alloc: Global, node: &Node, cells: &Row, wanted: &Res) -> bool {
    match counted::<Brand>(alloc, node, cells, Blank::new(1)) {
        Ok(res) => {
            let is_same = res.same(wanted);
            drop(res);
            is_same
        }
        Err(NoMemory) => false,
    }
}

fn whole(n: i64) -> Value {
    match Whole::new(n) {
        Some(n) => Value::Int(n),
        None => Value::Item(0),
    }
}

fn list(alloc: Global, members: &[u32]) -> Option<Value> {
    let items = Vec::from_slice(alloc, members).ok()?;
    Some(Value::Members(Members::new(items)?))
}

// Each of these is none where memory is wanting.
fn two_cells(alloc: Global, first: Res, second: Res) -> Option<Row> {
    let cells = Vec::from_array(alloc, [first, second]).ok()?;
    Some(Row { cells })
}

fn sum(alloc: Global) -> Option<Node> {
    let operands = [
        Node::Read(NodeRead::Dependency, ResolvedPath::Global(0)),
        Node::Read(NodeRead::Dependency, ResolvedPath::Same(1)),
    ];
    let operands = Vec::from_array(alloc, operands).ok()?;
    Some(Node::Many(ManyOp::Add, operands))
}

fn gives_the_sum(alloc: Global, row: &Row, wanted: &Res) -> bool {
    match sum(alloc) {
        Some(node) => {
            let gives = gives(alloc, &node, row, wanted);
            drop(node);
            gives
        }
        None => false,
    }
}

fn gives_five(alloc: Global, row: &Row) -> bool {
    let wanted = Res::Placeholder(whole(5));
    let gives = gives_the_sum(alloc, row, &wanted);
    drop(wanted);
    gives
}

fn row_of_numbers(alloc: Global) -> Option<Row> {
    two_cells(alloc, Res::Complete(whole(2)), Res::Placeholder(whole(3)))
}

// None where memory is wanting, as in the others.
fn sums(alloc: Global) -> Option<bool> {
    match row_of_numbers(alloc) {
        Some(row) => {
            let gives = gives_five(alloc, &row);
            drop(row);
            Some(gives)
        }
        None => None,
    }
}

#[test]
fn a_sum_over_a_placeholder(rt: HostRuntime) -> Result<(), Fail> {
    let sums = sums(rt.alloc()).ok_or("no memory")?;
    assert!(rt; sums);
    Ok(())
}

fn row_of_members(alloc: Global) -> Option<Row> {
    let members = list(alloc, &[1, 2])?;
    two_cells(
        alloc,
        Res::Complete(members),
        Res::Complete(Value::Boolean(true)),
    )
}

fn find(alloc: Global) -> Option<Node> {
    let test = Node::Read(NodeRead::Dependency, ResolvedPath::Inner(0));
    let test = Box::new(alloc, test).ok()?;
    Some(Node::Pick(PickOp::Find, ResolvedPath::Global(0), test))
}

fn gives_the_found(alloc: Global, row: &Row, wanted: &Res) -> bool {
    match find(alloc) {
        Some(node) => {
            let gives = gives(alloc, &node, row, wanted);
            drop(node);
            gives
        }
        None => false,
    }
}

fn gives_the_first(alloc: Global, row: &Row) -> bool {
    let wanted = Res::Complete(Value::Item(1));
    let gives = gives_the_found(alloc, row, &wanted);
    drop(wanted);
    gives
}

fn finds(alloc: Global) -> Option<bool> {
    match row_of_members(alloc) {
        Some(row) => {
            let gives = gives_the_first(alloc, &row);
            drop(row);
            Some(gives)
        }
        None => None,
    }
}

// The condition is complete at member 1, and has no cell at member 2.
#[test]
fn a_find_ends_at_the_member_that_it_finds(rt: HostRuntime) -> Result<(), Fail> {
    let finds = finds(rt.alloc()).ok_or("no memory")?;
    assert!(rt; finds);
    Ok(())
}

fn row_of_a_list(alloc: Global) -> Option<Row> {
    let members = list(alloc, &[4, 3])?;
    two_cells(alloc, Res::Incomplete, Res::Placeholder(members))
}

fn gives_a_copy(alloc: Global, row: &Row, wanted: &Res) -> bool {
    let node = Node::Read(NodeRead::Dependency, ResolvedPath::Global(1));
    let gives = gives(alloc, &node, row, wanted);
    drop(node);
    gives
}

fn gives_the_list(alloc: Global, row: &Row) -> bool {
    match list(alloc, &[4, 3]) {
        Some(members) => {
            let wanted = Res::Placeholder(members);
            let gives = gives_a_copy(alloc, row, &wanted);
            drop(wanted);
            gives
        }
        None => false,
    }
}

fn copies(alloc: Global) -> Option<bool> {
    match row_of_a_list(alloc) {
        Some(row) => {
            let gives = gives_the_list(alloc, &row);
            drop(row);
            Some(gives)
        }
        None => None,
    }
}

#[test]
fn a_list_is_copied(rt: HostRuntime) -> Result<(), Fail> {
    let copies = copies(rt.alloc()).ok_or("no memory")?;
    assert!(rt; copies);
    Ok(())
}
