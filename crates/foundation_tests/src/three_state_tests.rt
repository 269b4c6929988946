// Tests of `three_state`: All and Any over lists of up to three results, against their rules.
use fact_values::{Dollar, Members, Text, Value, ValueFault, Whole};
use std::alloc::Global;
use three_state::{AllFold, AnyFold, Res, Strict, Verdict, down, finish, truth};

// Results by letters: T and F are complete, t and f placeholders, i incomplete, o and z the
// faults, and - none.
const LETTERS: [u8; 7] = [b'-', b'T', b'F', b't', b'f', b'i', b'o'];

fn res_of(letter: u8) -> Option<Res> {
    match letter {
        b'T' => Some(Res::Complete(Value::Boolean(true))),
        b'F' => Some(Res::Complete(Value::Boolean(false))),
        b't' => Some(Res::Placeholder(Value::Boolean(true))),
        b'f' => Some(Res::Placeholder(Value::Boolean(false))),
        b'i' => Some(Res::Incomplete),
        b'o' => Some(Res::Fault(ValueFault::Overflow)),
        b'z' => Some(Res::Fault(ValueFault::ZeroDivide)),
        _ => None,
    }
}

fn letter_of(res: &Res) -> u8 {
    match res {
        Res::Complete(v) => if truth(v) { b'T' } else { b'F' },
        Res::Placeholder(v) => if truth(v) { b't' } else { b'f' },
        Res::Incomplete => b'i',
        Res::Fault(fault) => match fault {
            ValueFault::Overflow => b'o',
            ValueFault::ZeroDivide => b'z',
        },
    }
}

fn all_by_fold(letters: &[u8]) -> u8 {
    let mut fold = AllFold::new();
    for letter in letters {
        if let Some(res) = res_of(*letter) {
            fold.see(&res);
        }
    }
    letter_of(&fold.end())
}

fn any_by_fold(letters: &[u8]) -> u8 {
    let mut fold = AnyFold::new();
    for letter in letters {
        if let Some(res) = res_of(*letter) {
            fold.see(&res);
        }
    }
    letter_of(&fold.end())
}

// The letter of the first rule that fits, and the last one where no rule does.
fn first_of(rules: &[u8], otherwise: u8, letters: &[u8]) -> u8 {
    for rule in rules {
        if letters.contains(rule) {
            return *rule;
        }
    }
    otherwise
}

// Whether both folds of the list are by the first rule that fits.
fn are_by_rule(letters: &[u8]) -> bool {
    all_by_fold(letters) == first_of(b"Fioft", b'T', letters)
        && any_by_fold(letters) == first_of(b"Tiotf", b'F', letters)
}

fn are_by_rule_behind(first: u8, second: u8) -> bool {
    for third in LETTERS {
        if !are_by_rule(&[first, second, third]) {
            return false;
        }
    }
    true
}

// Each list of up to three of T, F, t, f, i and o.
#[test]
fn all_and_any_are_the_first_rule_that_fits(rt: HostRuntime) {
    for first in LETTERS {
        for second in LETTERS {
            assert!(rt;
                are_by_rule_behind(first, second),
                "behind {first} and {second}"
            );
        }
    }
}

#[test]
fn all_and_any_give_the_first_fault(rt: HostRuntime) {
    for (letters, fault) in [("oz", b'o'), ("zo", b'z'), ("tzo", b'z'), ("fozt", b'o')] {
        let letters = letters.as_bytes();
        assert!(rt; all_by_fold(letters) == fault && any_by_fold(letters) == fault);
    }
}

fn verdict_by_fold(letters: &str) -> Verdict {
    let mut fold = Strict::new();
    for letter in letters.as_bytes() {
        if let Some(res) = res_of(*letter) {
            fold.see(&res);
        }
    }
    fold.verdict()
}

#[test]
fn strict_operations(rt: HostRuntime) {
    for (letters, verdict) in [
        ("", Verdict::Go(true)),
        ("TF", Verdict::Go(true)),
        ("Tt", Verdict::Go(false)),
        ("fT", Verdict::Go(false)),
        ("ti", Verdict::Incomplete),
        ("oi", Verdict::Incomplete),
        ("io", Verdict::Incomplete),
        ("to", Verdict::Fault(ValueFault::Overflow)),
        ("ozT", Verdict::Fault(ValueFault::Overflow)),
        ("zot", Verdict::Fault(ValueFault::ZeroDivide)),
    ] {
        assert!(rt; verdict_by_fold(letters) == verdict, "of {letters}");
    }
}

fn ends_as(is_complete: bool, outcome: Result<Value, ValueFault>) -> u8 {
    letter_of(&finish(is_complete, outcome))
}

#[test]
fn an_operation_ends_by_its_operands(rt: HostRuntime) {
    assert!(rt; ends_as(true, Ok(Value::Boolean(true))) == b'T');
    assert!(rt; ends_as(false, Ok(Value::Boolean(true))) == b't');
    assert!(rt; ends_as(true, Err(ValueFault::ZeroDivide)) == b'z');
}

fn down_from(letter: u8) -> u8 {
    match res_of(letter) {
        Some(res) => letter_of(&down(res)),
        None => b'-',
    }
}

#[test]
fn down_makes_placeholders(rt: HostRuntime) {
    for (from, to) in [
        (b'T', b't'),
        (b'F', b'f'),
        (b't', b't'),
        (b'i', b'i'),
        (b'o', b'o'),
        (b'z', b'z'),
    ] {
        assert!(rt; down_from(from) == to, "from {from}");
    }
}

#[test]
fn a_value_of_another_kind_counts_as_false(rt: HostRuntime) {
    assert!(rt; truth(&Value::Boolean(true)));
    assert!(rt; !truth(&Value::Boolean(false)));
    assert!(rt; !truth(&Value::Item(1)));
}

// Values of all kinds; no two are equal.
const SAMPLES: u8 = 12;

fn number(k: u8) -> Option<Value> {
    match k {
        0 => Some(Value::Int(Whole::new(0)?)),
        1 => Some(Value::Int(Whole::new(-1)?)),
        _ => Some(Value::Dollar(Dollar::new(0)?)),
    }
}

fn text(alloc: Global) -> Option<Value> {
    let text = String::from_str(alloc, "a").ok()?;
    Some(Value::Text(Text::new(text)?))
}

fn members(alloc: Global, numbers: &[u32]) -> Option<Value> {
    let list = numbers.to_vec(alloc).ok()?;
    Some(Value::Members(Members::new(list)?))
}

fn sample(alloc: Global, k: u8) -> Option<Value> {
    match k {
        0 => Some(Value::Boolean(false)),
        1 => Some(Value::Boolean(true)),
        2 => Some(Value::Choice(0, 1)),
        3 => Some(Value::Choice(1, 0)),
        4 => Some(Value::Item(1)),
        5 => Some(Value::Item(2)),
        6 => text(alloc),
        7 => members(alloc, &[1, 2]),
        8 => members(alloc, &[2, 1]),
        _ => number(k - 9),
    }
}

fn complete(alloc: Global, k: u8) -> Option<Res> {
    Some(Res::Complete(sample(alloc, k)?))
}

// Whether the result and a copy of it are the same.
fn equals_its_copy(alloc: Global, res: &Res) -> bool {
    match res.copy(alloc) {
        Ok(copy) => res.same(&copy),
        Err(_) => false,
    }
}

// Whether a placeholder of the value is copied, and isn't the complete result.
fn is_another(alloc: Global, res: &Res, k: u8) -> bool {
    match complete(alloc, k) {
        Some(other) => is_another_copied(alloc, res, &down(other)),
        None => false,
    }
}

fn is_another_copied(alloc: Global, res: &Res, other: &Res) -> bool {
    equals_its_copy(alloc, other) && !res.same(other)
}

fn equals(alloc: Global, res: &Res, k: u8) -> bool {
    match complete(alloc, k) {
        Some(other) => res.same(&other),
        None => false,
    }
}

// Whether the result equals the one of this number, and no other.
fn equals_one(alloc: Global, res: &Res, k: u8) -> bool {
    for other in 0..SAMPLES {
        if equals(alloc, res, other) != (k == other) {
            return false;
        }
    }
    true
}

fn is_copied_alone(alloc: Global, k: u8) -> bool {
    match complete(alloc, k) {
        Some(res) => {
            equals_its_copy(alloc, &res) && is_another(alloc, &res, k) && equals_one(alloc, &res, k)
        }
        None => false,
    }
}

#[test]
fn copies_are_the_same_and_others_are_not(rt: HostRuntime) {
    for k in 0..SAMPLES {
        assert!(rt; is_copied_alone(rt.alloc(), k), "at {k}");
    }
}

const OVERFLOW: Res = Res::Fault(ValueFault::Overflow);

#[test]
fn results_without_a_value_are_told_apart(rt: HostRuntime) {
    assert!(rt; equals_its_copy(rt.alloc(), &OVERFLOW));
    assert!(rt; equals_its_copy(rt.alloc(), &Res::Incomplete));
    assert!(rt; !OVERFLOW.same(&Res::Fault(ValueFault::ZeroDivide)));
    assert!(rt; !OVERFLOW.same(&Res::Incomplete));
}
