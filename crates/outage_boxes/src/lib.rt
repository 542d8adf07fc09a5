// The box of an outage row: its bytes are decoded, checked, and made into a solid in two lent lists.
#![tactic(auto)]

ghost use Rattle.std.specs.Prelude.{◌≡◌, cond, ◌+◌, ◌<◌, ◌≤◌, ◌^◌, eqb, length};
ghost use Rattle.std.proofs.lemmas.List.Edits.{sets};
ghost use Rattle.list_words.specs.Lists.{onto};
ghost use Rattle.outage_rows.specs.Box as Bx;
ghost use Rattle.outage_rows.specs.Boxed as Bo;
ghost use Rattle.outage_boxes.specs.Words as Ow;

use outage_rows::{Boxed, Row, Span};
use points::Point;
use solids::{Answer, Refusal};

// A box has 8 vertices and 12 facets, three numbers each.
const COORDINATES: usize = 24;

const CORNERS: usize = 36;

// A corner's coordinate by its x, y or z: 1 for high.
fn end(digit: usize, low: f64, high: f64) -> f64
    ensures { result ≡ cond (eqb digit 1) high low }
{
    if digit == 1 { high } else { low }
}

// The corner numbered x + 2y + 4z.
fn corner(b: Span, n: usize) -> Point
    ensures { result ≡ Bx.corner_point b n }
{
    Point {
        x: end(n % 2, b.low.x, b.high.x),
        y: end(n / 2 % 2, b.low.y, b.high.y),
        z: end(n / 4 % 2, b.low.z, b.high.z),
    }
}

fn put_points(b: Span, points: &mut [f64])
    requires { 24 ≤ length points.old }
    ensures { points.new ≡ onto (Bx.box b).points points.old }
{
    for n in 0..8 {
        list_stores::put_point(corner(b, n), points, 3 * n);
    }
}

// A face with the corners a, b, c, d, the lowest first: cut by the diagonal from a to d, the triangle with b first. Both are turned outward where a, b, d
// is, for true, or a, d, b, for false. The corners have the rule's letters, which the places of an array would not say.
fn put_face(a: u32, b: u32, c: u32, d: u32, turned: bool, corners: &mut [u32], at: usize)
    requires { at + 5 < 2 ^ 64 }
    ensures { corners.new ≡ sets corners.old at (Ow.cut a b c d turned) }
{
    if turned {
        list_stores::put_three(a, b, d, corners, at);
        list_stores::put_three(a, d, c, corners, at + 3);
    } else {
        list_stores::put_three(a, d, b, corners, at);
        list_stores::put_three(a, c, d, corners, at + 3);
    }
}

// Low before high for x, y, z.
fn put_facets(b: Span, corners: &mut [u32])
    requires { 36 ≤ length corners.old }
    ensures { corners.new ≡ onto (Bx.box b).corners corners.old }
{
    put_face(0, 2, 4, 6, false, corners, 0);
    put_face(1, 3, 5, 7, true, corners, 6);
    put_face(0, 1, 4, 5, true, corners, 12);
    put_face(2, 3, 6, 7, false, corners, 18);
    put_face(0, 1, 2, 3, false, corners, 24);
    put_face(4, 5, 6, 7, true, corners, 30);
}

// The checks 3, 4, 12, 13, then 8 on a decoded row; then, in the fronts of the lent lists, its box.
fn make(r: Row, points: &mut [f64], corners: &mut [u32]) -> Result<Boxed, Answer>
    ensures { Bo.outcome (Ow.answered result) points.new corners.new ≡ Ow.made r points.old corners.old }
{
    outage_bounds::check(r)?;
    if points.len() < COORDINATES || corners.len() < CORNERS {
        return Err(Refusal::TooShort.on_nobody());
    }
    let b = outage_bounds::bounds(r);
    put_points(b, points);
    put_facets(b, corners);
    Ok(Boxed {
        answer: Answer::SUCCESS,
        vertices: 8,
        facets: 12,
        unit: r.unit,
    })
}

// The checks 9, 3, 4, 12, 13, then 8; the lent lists stay as they are before all have passed.
fn checked(row: &[u8], points: &mut [f64], corners: &mut [u32]) -> Result<Boxed, Answer>
    ensures { Bo.outcome (Ow.answered result) points.new corners.new ≡ Bo.boxed row.now points.old corners.old }
{
    if outage_bytes::no_row(row) {
        return Err(Refusal::NoLayout.on_nobody());
    }
    make(outage_bytes::decode(row), points, corners)
}

pub fn boxed(row: &[u8], points: &mut [f64], corners: &mut [u32]) -> Boxed
    ensures { Bo.BoxRow row.now points.old corners.old (result, (points.new, corners.new)) }
{
    checked(row, points, corners).unwrap_or_else(Boxed::from)
}
