// A solid's facets, with their corners as points, from the two lists of a solid.
#![tactic(auto)]

ghost use Rattle.std.specs.Prelude.{◌≡◌, [], ◌/◌, ◌<◌, length, get_or};
ghost use Rattle.solids.specs.Solids as So;
ghost use Rattle.solids.specs.Words as Sw;

use crossings::Facet;
use points::Point;

fn corner(points: &[f64], corners: &[u32], i: usize) -> Point
    requires { (i < length corners.now) × Sw.Named points.now corners.now }
    ensures { result ≡ So.vertex (So.solid points.now []) (get_or corners.now i 0) }
{
    let number = corners[i] as usize;
    vertices::vertex(points, number)
}

pub fn facet(points: &[f64], corners: &[u32], f: usize) -> Facet
    requires { (f < length corners.now / 3) × Sw.Named points.now corners.now }
    ensures { result ≡ So.facet (So.lent points.entry corners.entry) f }
{
    let p = corners[3 * f];
    let q = corners[3 * f + 1];
    let r = corners[3 * f + 2];
    Facet {
        p: corner(points, corners, 3 * f),
        q: corner(points, corners, 3 * f + 1),
        r: corner(points, corners, 3 * f + 2),
        pq: p < q,
        qr: q < r,
        rp: r < p,
    }
}
