//! A test of `dict_types`: what is kept of a dictionary. What refuses one is shown by stored cases of the program.
ghost use Rattle.std.specs.Prelude.{◌≡◌, IfSome, length};

use crate::checks::table;
use dict_source::DictSource;
use dict_tree::read;
use dict_types::{Limit, Typed, check};
use fact_values::{FactType, Value, same};
use std::alloc::Global;
use std::test::Fail;

const TEXT: &str =
    r#"{"version":"2","enums":[{"name":"status","options":["single","married"]}],"facts":[{"path":"/t","writable":"Text","limits":[["Check","nine-digits"]]},{"path":"/s","derived":"Enum(status)","is":["Enum","status","single"],"conditional":[["Not",["True"]],["Enum","status","married"]]}]}"#;

fn is_value(found: Option<&Value>, want: &Value) -> bool {
    match found {
        None => false,
        Some(found) => same(found, want),
    }
}

fn is_check(limit: &Limit, place: u32) -> bool {
    match limit {
        Limit::Check(found) => *found == place,
        _ => false,
    }
}

fn lacks_constants(typed: &Typed) -> bool {
    typed.constant(1, 1).is_none()
        && typed.constant(2, 2).is_none()
        && typed.constant(2, 5).is_none()
        && typed.constant(3, 1).is_none()
}

fn has_constants(typed: &Typed) -> bool {
    is_value(typed.constant(2, 3), &Value::Boolean(true))
        && is_value(typed.constant(2, 4), &Value::Choice(0, 1))
}

fn has_types(typed: &Typed) -> bool
    requires { length typed.now.facts ≡ 2 }
{
    typed.fact_type(1) == FactType::Text && typed.fact_type(2) == FactType::Enum(0)
}

fn has_limits(typed: &Typed) -> bool
    requires { length typed.now.limits ≡ 2 }
{
    typed.limits(1).len() == 1 && is_check(&typed.limits(1)[0], 1) && typed.limits(2).is_empty()
}

fn typed(alloc: Global, source: &DictSource) -> Option<Typed>
    ensures facts { IfSome result (λ typed. length typed.facts ≡ length source.now.facts) }
    ensures limits { IfSome result (λ typed. length typed.limits ≡ length source.now.facts) }
{
    let checks = table(alloc, true)?;
    check(alloc, source, &checks).ok()
}

// Whether the constants, types and limits of the two facts are kept: none where memory is wanting.
fn are_kept(alloc: Global, source: &DictSource) -> Option<bool> {
    if source.facts().len() != 2 {
        return Some(false);
    }
    let typed = typed(alloc, source)?;
    Some(
        has_constants(&typed) && lacks_constants(&typed) && has_types(&typed) && has_limits(&typed),
    )
}

#[test]
fn constants_types_and_limits_are_kept(rt: HostRuntime) -> Result<(), Fail> {
    let source = read(rt.alloc(), TEXT.as_bytes())?;
    assert!(rt; are_kept(rt.alloc(), &source) == Some(true));
    Ok(())
}
