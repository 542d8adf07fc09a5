// One solid's vertices with the solid that counts them.
ghost use Rattle.std.specs.Prelude.{◌≡◌, ◌≤◌, nat_abs};
ghost use Rattle.solids.specs.Admission as Ad;
ghost use Rattle.solids.specs.Refusals.{accepted};
ghost use Rattle.edges.specs.Readers.{solid_of};
ghost use Rattle.bounds.specs.Words as Bo;

use bounds::Bounds;
use edges::ReadySolid;

// The vertices of `own` as `other` counts them, which is B if `as_b`: `alone` and `times` times the count, from `at` on. Each solid comes with the box
// round it.
#[derive(Clone, Copy)]
pub struct Side<'a> {
    pub as_b: bool,
    pub own: ReadySolid<'a>,
    pub other: ReadySolid<'a>,
    pub own_box: Bounds,
    pub other_box: Bounds,
    pub alone: i32,
    pub times: i32,
    pub at: usize,
    ghost own_admitted: { Ad.admission (solid_of own) ≡ accepted },
    ghost other_admitted: { Ad.admission (solid_of other) ≡ accepted },
    ghost own_whole: { own_box ≡ Bo.whole (solid_of own) },
    ghost other_whole: { other_box ≡ Bo.whole (solid_of other) },
    ghost alone_small: { nat_abs alone ≤ 1 },
    ghost times_small: { nat_abs times ≤ 1 },
}
