//! Tests of `steps`.
ghost use Rattle.std.specs.Prelude.{◌≡◌, ◌+◌, ◌<◌, length, count_by, ◌==◌};

use std::marker::Brand;
use std::sync::ledger::{Blank, Ledger};
use steps::Steps;

// Looks at each item once.
fn count_zeros<L: Ledger>(items: &[u32], steps: &mut Steps<L>) -> usize
    ensures count { result ≡ count_by (λ x. x == 0) items.now }
    ensures steps { steps.new ≡ steps.old + length items.now }
{
    let mut zeros = 0;
    for item in items {
        steps.tick();
        if *item == 0 {
            zeros += 1;
        }
    }
    zeros
}

// Looks at a list twice, with a counter of its own.
fn count_twice<L: Ledger>(items: &[u32], blank: Blank) -> usize
    requires name { blank.name ≡ L.name }
    requires parts { blank.parts ≡ L.parts }
    requires some { 0 < blank.parts }
    ensures { result ≡ count_by (λ x. x == 0) items.now }
{
    let mut steps = Steps::<L>::new(blank);
    let _first = count_zeros(items, &mut steps);
    count_zeros(items, &mut steps)
}

// A caller that counts nothing.
fn count_alone(items: &[u32]) -> usize
    ensures { result ≡ count_by (λ x. x == 0) items.now }
{
    count_twice::<Brand>(items, Blank::new(1))
}

#[test]
fn a_loop_over_a_list_ticks(rt: HostRuntime) {
    for (items, zeros) in [([0, 7, 0], 2), ([1, 2, 3], 0), ([0, 0, 0], 3)] {
        assert!(rt; count_alone(&items) == zeros, "at {zeros}");
    }
}

#[test]
fn a_counter_has_no_bytes(rt: HostRuntime) {
    assert!(rt; std::mem::size_of::<Steps<Brand>>() == 0);
}
