//! Tests of `fact_values`: of what no script shows. Its arithmetic, roundings and ranges are stored cases.

use fact_values::{Day, Dollar, Members, Rational, Text, Value, Whole, is_in_range, same};
use std::alloc::Global;

fn is_date(day: Day, year: i64, month: i64, number: i64) -> bool {
    day.year() == year && day.month() == month && day.number() == number
}

// Whether this day of the month is that day of the calendar, by its parts and by its number.
fn is_day(year: i64, month: i64, day: i64, number: i64) -> bool {
    match Day::new(year, month, day) {
        Some(made) => {
            is_date(made, year, month, number)
                && made.day() == day
                && Day::of_number(number) == Some(made)
        }
        None => false,
    }
}

#[test]
fn days_are_those_of_the_calendar(rt: HostRuntime) {
    for (year, month, day, number) in [
        (1800, 1, 1, -62_091),
        (1969, 12, 31, -1),
        (1970, 1, 1, 0),
        (2000, 2, 29, 11_016),
        (2199, 12, 31, 84_005),
    ] {
        assert!(rt; is_day(year, month, day, number), "at {number}");
    }
}

fn are_past_the_calendar() -> bool {
    Day::new(65_536 + 2023, 1, 1).is_none()
        && Day::new(i64::MAX, i64::MAX, i64::MAX).is_none()
        && Day::new(i64::MIN, i64::MIN, i64::MIN).is_none()
        && Day::of_number(-62_092).is_none()
        && Day::of_number(84_006).is_none()
}

#[test]
fn the_calendar_ends(rt: HostRuntime) {
    assert!(rt; are_past_the_calendar());
}

fn is_whole(n: i64) -> bool {
    match Whole::new(n) {
        Some(whole) => whole.get() == n,
        None => false,
    }
}

fn is_amount(cents: i64) -> bool {
    match Dollar::new(cents) {
        Some(amount) => amount.cents() == cents,
        None => false,
    }
}

fn is_number(n: i64) -> bool {
    is_in_range(n) && is_whole(n) && is_amount(n)
}

fn is_no_number(n: i64) -> bool {
    !is_in_range(n) && !is_whole(n) && !is_amount(n)
}

const MOST: i64 = 999_999_999_999_999;

#[test]
fn numbers_and_amounts_end_below_ten_to_the_fifteenth(rt: HostRuntime) {
    for n in [0, 1, -1, MOST, -MOST] {
        assert!(rt; is_number(n), "at {n}");
    }
    for n in [MOST + 1, -MOST - 1, i64::MAX, i64::MIN] {
        assert!(rt; is_no_number(n), "at {n}");
    }
}

#[test]
fn numbers_and_amounts_have_their_order(rt: HostRuntime) {
    assert!(rt; Whole::new(-5) < Whole::new(3) && Dollar::new(150) > Dollar::new(15));
}

// Each of these says whether a value is made of what is given: none where another one is made, or where memory is wanting.
fn is_text(made: Option<Text>, wanted: &str) -> Option<bool> {
    match made {
        Some(made) => same_or_none(made.as_str() == wanted),
        None => Some(false),
    }
}

fn same_or_none(is_same: bool) -> Option<bool> {
    if is_same { Some(true) } else { None }
}

fn makes_text(alloc: Global, of: &str) -> Option<bool> {
    match String::from_str(alloc, of) {
        Ok(text) => is_text(Text::new(text), of),
        Err(_) => None,
    }
}

#[test]
fn texts_have_no_control_character(rt: HostRuntime) {
    for of in ["", "a", "~", " ", "\u{a0}", "\u{e9}t\u{e9}", "\u{1f600}"] {
        assert!(rt; makes_text(rt.alloc(), of) == Some(true), "at {of:?}");
    }
    for of in ["\u{0}", "a\n", "\u{1f}", "a\u{7f}b", "\u{80}", "\u{9f}"] {
        assert!(rt; makes_text(rt.alloc(), of) == Some(false), "at {of:?}");
    }
}

// The piece, so many times.
fn makes_long_text(alloc: Global, piece: &str, count: usize) -> Option<bool> {
    match piece.repeat(alloc, count) {
        Ok(text) => Some(Text::new(text).is_some()),
        Err(_) => None,
    }
}

fn has_1000_bytes_at_most(alloc: Global) -> bool {
    makes_long_text(alloc, "a", 1000) == Some(true)
        && makes_long_text(alloc, "a", 1001) == Some(false)
        && makes_long_text(alloc, "\u{e9}", 501) == Some(false)
}

#[test]
fn texts_have_1000_bytes_at_most(rt: HostRuntime) {
    assert!(rt; has_1000_bytes_at_most(rt.alloc()));
}

fn are_members(made: Option<Members>, wanted: &[u32]) -> Option<bool> {
    match made {
        Some(made) => same_or_none(made.as_slice() == wanted),
        None => Some(false),
    }
}

fn makes_members(alloc: Global, numbers: &[u32]) -> Option<bool> {
    match numbers.to_vec(alloc) {
        Ok(list) => are_members(Members::new(list), numbers),
        Err(_) => None,
    }
}

fn makes_distinct_members(alloc: Global) -> bool {
    makes_members(alloc, &[3, 1, 1_000_000]) == Some(true)
        && makes_members(alloc, &[]) == Some(true)
        && makes_members(alloc, &[3, 1, 3]) == Some(false)
        && makes_members(alloc, &[1, 0]) == Some(false)
        && makes_members(alloc, &[1_000_001]) == Some(false)
}

#[test]
fn members_are_distinct_numbers_to_a_million(rt: HostRuntime) {
    assert!(rt; makes_distinct_members(rt.alloc()));
}

fn counted(alloc: Global, count: u32) -> Option<Vec<u32>> {
    let mut list = Vec::new(alloc);
    for i in 0..count {
        list.push(i.wrapping_add(1)).ok()?;
    }
    Some(list)
}

fn makes_so_many(alloc: Global, count: u32) -> Option<bool> {
    match counted(alloc, count) {
        Some(list) => Some(Members::new(list).is_some()),
        None => None,
    }
}

#[test]
fn members_are_100_at_most(rt: HostRuntime) {
    assert!(rt; makes_so_many(rt.alloc(), 100) == Some(true));
    assert!(rt; makes_so_many(rt.alloc(), 101) == Some(false));
}

#[test]
fn a_value_has_32_bytes(rt: HostRuntime) {
    assert!(rt; size_of::<Value>() == 32);
}

// Values of all kinds; no two are equal.
const SAMPLES: u8 = 11;

fn number(k: u8) -> Option<Value> {
    match k {
        0 => Some(Value::Int(Whole::new(1)?)),
        1 => Some(Value::Dollar(Dollar::new(1)?)),
        2 => Some(Value::Rational(Rational::new(1, 2).ok()?)),
        _ => Some(Value::Day(Day::of_number(1)?)),
    }
}

fn text(alloc: Global) -> Option<Value> {
    let text = String::from_str(alloc, "1").ok()?;
    Some(Value::Text(Text::new(text)?))
}

fn members(alloc: Global) -> Option<Value> {
    let list = [1].as_slice().to_vec(alloc).ok()?;
    Some(Value::Members(Members::new(list)?))
}

fn sample(alloc: Global, k: u8) -> Option<Value> {
    match k {
        0 => Some(Value::Boolean(true)),
        1 => Some(Value::Boolean(false)),
        2 => Some(Value::Choice(1, 2)),
        3 => Some(Value::Choice(2, 1)),
        4 => Some(Value::Item(1)),
        5 => text(alloc),
        6 => members(alloc),
        _ => number(k - 7),
    }
}

// Whether the value and a copy of it are the same.
fn equals_its_copy(alloc: Global, value: &Value) -> bool {
    match value.copy(alloc) {
        Ok(copy) => same(&copy, value),
        Err(_) => false,
    }
}

fn equals(alloc: Global, value: &Value, k: u8) -> bool {
    match sample(alloc, k) {
        Some(other) => same(value, &other),
        None => false,
    }
}

// Whether the value equals the one of this number, and no other.
fn equals_one(alloc: Global, value: &Value, k: u8) -> bool {
    for other in 0..SAMPLES {
        if equals(alloc, value, other) != (k == other) {
            return false;
        }
    }
    true
}

fn is_copied_alone(alloc: Global, k: u8) -> bool {
    match sample(alloc, k) {
        Some(value) => equals_its_copy(alloc, &value) && equals_one(alloc, &value, k),
        None => false,
    }
}

#[test]
fn values_equal_their_copies_alone(rt: HostRuntime) {
    for k in 0..SAMPLES {
        assert!(rt; is_copied_alone(rt.alloc(), k), "at {k}");
    }
}
