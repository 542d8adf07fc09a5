// What may stand in a row's bounds, and the bounds that they give.
#![tactic(auto)]

ghost use Rattle.std.specs.Prelude.{◌≡◌, Bool, ◌||◌};
ghost use Rattle.std.specs.Float.Ieee.{lt};
ghost use Rattle.list_words.specs.Lists.{any};
ghost use Rattle.outage_rows.specs.declared.Bound.{Bound};
ghost use Rattle.outage_rows.specs.Bounds as Bn;
ghost use Rattle.outage_bounds.specs.Words as Ow;

use outage_rows::{Bound, Range, Row, Span};
use points::Point;
use solids::{Refusal, Verdict};

// 3: "a blank without its flag".
#[tactic(auto, unfolding(outage_rows::specs::Bounds::missing))]
fn missing(b: Bound) -> bool
    ensures { result ≡ Bn.missing b }
{
    faults::blank(b.value) && !b.flag
}

// 4, whether its flag is set or not.
fn too_far(b: Bound) -> bool
    ensures { result ≡ Bn.too_far b }
{
    faults::beyond(b.value)
}

// 12: "flag set, value present".
#[tactic(auto, unfolding(outage_rows::specs::Bounds::present))]
fn present(b: Bound) -> bool
    ensures { result ≡ Bn.present b }
{
    b.flag && !faults::blank(b.value)
}

fn on_axis<F: Fn(Bound) -> bool>(test: &F, a: Range) -> bool
    requires { F.IsAlwaysCallable test.now }
    ensures { (p : Bound → Bool) → Ow.Computes (F.post test.now) p → result ≡ (p a.low || p a.high) }
{
    test(a.low) || test(a.high)
}

// Does some bound of the row meet the test?
fn some<F: Fn(Bound) -> bool>(test: F, r: Row) -> bool
    requires { F.IsAlwaysCallable test }
    ensures { (p : Bound → Bool) → Ow.Computes (F.post test) p → result ≡ any p (Bn.bounds_of r) }
{
    on_axis(&test, r.x) || on_axis(&test, r.y) || on_axis(&test, r.z)
}

// "becomes the limit, negative for a low"
fn low(b: Bound) -> f64
    ensures { result ≡ Bn.low_bound b }
{
    if b.flag { -1048576.0 } else { b.value }
}

fn high(b: Bound) -> f64
    ensures { result ≡ Bn.high_bound b }
{
    if b.flag { 1048576.0 } else { b.value }
}

#[tactic(auto, unfolding(outage_rows::specs::Bounds::bounds))]
pub fn bounds(r: Row) -> Span
    ensures { result ≡ Bn.bounds r }
{
    Span {
        low: Point {
            x: low(r.x.low),
            y: low(r.y.low),
            z: low(r.z.low),
        },
        high: Point {
            x: high(r.x.high),
            y: high(r.y.high),
            z: high(r.z.high),
        },
    }
}

// A comparison with a NaN is false, so `>=` would say less than the negation.
#[tactic(auto, unfolding(outage_rows::specs::Bounds::not_below, list_words::specs::Lists::any))]
fn not_below(b: Span) -> bool
    ensures { result ≡ Bn.not_below b }
{
    !(b.low.x < b.high.x) || !(b.low.y < b.high.y) || !(b.low.z < b.high.z)
}

// The checks 3, 4, 12 and 13, on nobody.
pub fn check(r: Row) -> Verdict
    ensures { result ≡ Ow.check_bounds r }
{
    if some(missing, r) {
        return Err(Refusal::Blank.on_nobody());
    }
    if some(too_far, r) {
        return Err(Refusal::OutOfRange.on_nobody());
    }
    if some(present, r) {
        return Err(Refusal::FlaggedValue.on_nobody());
    }
    if not_below(bounds(r)) {
        return Err(Refusal::NotBelow.on_nobody());
    }
    Ok(())
}
