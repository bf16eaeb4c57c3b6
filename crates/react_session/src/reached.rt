//! What an evaluation depends on, each once.

ghost use Rattle.std.specs.Prelude.{◌≡◌, OnOk};
ghost use Rattle.react_session.specs.inner.Trail.{on_eq, is_on, with_on};

use dep_graph::On;
use rx_value::{Memory, RxList};

fn is_same(one: On, other: On) -> bool
    ensures { result ≡ on_eq one other }
{
    match (one, other) {
        (On::Source(s), On::Source(t)) => s == t,
        (On::Expr(m), On::Expr(n)) => m == n,
        (On::Source(_), On::Expr(_)) => false,
        (On::Expr(_), On::Source(_)) => false,
    }
}

fn is_on(on: On, ons: &[On]) -> bool
    ensures { result ≡ is_on on ons.now }
{
    ons.iter().any(|other| is_same(*other, on))
}

/// Notes what was read, unless it is noted already.
pub fn add(ons: &mut RxList<On>, on: On) -> Result<(), Memory>
    ensures { OnOk result (ons.new ≡ with_on ons.old on) }
{
    if is_on(on, ons.as_slice()) {
        Ok(())
    } else {
        ons.push(on)
    }
}
