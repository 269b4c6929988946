//! Tests of `operations` on values that no accepted dictionary has in these places.
use dict_source::TwoOp;
use fact_values::{Dollar, Rational, Value, ValueFault, Whole};
use operations::{CaseStep, ItemStep, case_step, item_step, members, size, two};
use three_state::{Res, down};

// Each of these is complete.
fn amount(cents: i64) -> Res {
    match Dollar::new(cents) {
        Some(amount) => Res::Complete(Value::Dollar(amount)),
        None => Res::Incomplete,
    }
}

fn whole(n: i64) -> Res {
    match Whole::new(n) {
        Some(n) => Res::Complete(Value::Int(n)),
        None => Res::Incomplete,
    }
}

fn half() -> Res {
    match Rational::new(1, 2) {
        Ok(half) => Res::Complete(Value::Rational(half)),
        Err(_) => Res::Incomplete,
    }
}

fn gives_fault(op: TwoOp, a: &Res, b: &Res, fault: ValueFault) -> bool {
    let res = two(op, a, b);
    res.same(&Res::Fault(fault))
}

fn amounts_have_no_product() -> bool {
    let cent = amount(1);
    gives_fault(TwoOp::Multiply, &cent, &cent, ValueFault::Overflow)
}

fn a_fraction_divides_nothing() -> bool {
    let one = whole(1);
    let half = half();
    gives_fault(TwoOp::Divide, &one, &half, ValueFault::ZeroDivide)
}

// Of an amount that isn't positive there are no multiples.
fn nothing_has_no_multiple() -> bool {
    let cents = amount(1001);
    let nothing = amount(0);
    gives_fault(TwoOp::RoundUp, &cents, &nothing, ValueFault::ZeroDivide)
}

#[test]
fn amounts_without_multiples(rt: HostRuntime) {
    assert!(rt; nothing_has_no_multiple());
}

#[test]
fn pairs_without_a_product_or_a_quotient(rt: HostRuntime) {
    assert!(rt; amounts_have_no_product());
    assert!(rt; a_fraction_divides_nothing());
}

// Whether the condition leads to the next case, with this flag.
fn goes_on(complete: bool, condition: &Res, still: bool) -> bool {
    match case_step(complete, condition) {
        CaseStep::Next(found) => found == still,
        CaseStep::Take(_) => false,
        CaseStep::End(_) => false,
    }
}

fn leads_nowhere(item: &Res) -> bool {
    match item_step(item) {
        ItemStep::Member(..) => false,
        ItemStep::End(_) => true,
    }
}

fn has_size(list: &Res, n: i64) -> bool {
    let wanted = whole(n);
    size(list).same(&wanted)
}

// A condition that isn't Boolean counts as false, another value than an item leads nowhere, and one
// that isn't a list has no members.
fn is_of_another_kind(res: &Res) -> bool {
    goes_on(true, res, true)
        && goes_on(false, res, false)
        && leads_nowhere(res)
        && members(res).is_empty()
        && has_size(res, 0)
}

#[test]
fn values_of_another_kind(rt: HostRuntime) {
    let cent = amount(1);
    assert!(rt; is_of_another_kind(&cent));
}

#[test]
fn a_placeholder_of_another_kind(rt: HostRuntime) {
    let maybe = down(amount(1));
    assert!(rt; goes_on(true, &maybe, false));
}
