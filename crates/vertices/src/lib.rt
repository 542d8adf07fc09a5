// A solid's vertices, as points.
#![tactic(auto)]

ghost use Rattle.std.specs.Prelude.{◌≡◌, [], ◌/◌, ◌<◌, length};
ghost use Rattle.solids.specs.Solids as So;

use points::Point;

pub fn vertex(points: &[f64], i: usize) -> Point
    requires { i < length points.now / 3 }
    ensures { result ≡ So.vertex (So.solid points.now []) i }
{
    Point {
        x: points[3 * i],
        y: points[3 * i + 1],
        z: points[3 * i + 2],
    }
}
