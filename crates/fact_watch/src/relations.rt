// The four relations, for closures to call.
ghost use Rattle.std.specs.Prelude.{◌≡◌};
ghost use Rattle.fact_watch.specs.Says.{is_complete as complete, is_greater as greater, watch_says};

use fact_values::Value;
use three_state::Res;

fn is_complete(res: &Res) -> bool
    ensures { result ≡ complete res.now }
{
    match res {
        Res::Complete(_) => true,
        Res::Placeholder(_) => false,
        Res::Incomplete => false,
        Res::Fault(_) => false,
    }
}

/// Code 1: the results differ, in kind or value.
pub fn changed(old: &Res, new: &Res) -> bool
    ensures { result ≡ watch_says 1 old.now new.now }
{
    !old.same(new)
}

/// Code 2: the result wasn't complete, and is now.
pub fn completed(old: &Res, new: &Res) -> bool
    ensures { result ≡ watch_says 2 old.now new.now }
{
    !is_complete(old) && is_complete(new)
}

/// Code 3: the result was complete, and isn't any more.
pub fn lost(old: &Res, new: &Res) -> bool
    ensures { result ≡ watch_says 3 old.now new.now }
{
    is_complete(old) && !is_complete(new)
}

// Both are whole numbers or both amounts, and the second is greater.
fn is_greater(old: &Value, new: &Value) -> bool
    ensures { result ≡ greater old.now new.now }
{
    match (old, new) {
        (Value::Int(m), Value::Int(n)) => m.get() < n.get(),
        (Value::Dollar(m), Value::Dollar(n)) => m.cents() < n.cents(),
        _ => false,
    }
}

/// Code 4: both results are complete whole numbers, or both complete amounts, and the new one is greater.
pub fn raised(old: &Res, new: &Res) -> bool
    ensures { result ≡ watch_says 4 old.now new.now }
{
    match (old, new) {
        (Res::Complete(v), Res::Complete(w)) => is_greater(v, w),
        _ => false,
    }
}
