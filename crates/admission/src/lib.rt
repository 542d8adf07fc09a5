// Admission in code: the checks 1 to 6 on one solid, in document 01's order, and those on a point. A solid is two lists that the caller lends:
// coordinates, three a point, and corners, three vertex numbers a facet.
#![tactic(auto)]

ghost use Rattle.std.specs.Prelude.{◌≡◌, [], ◌∷◌, ◌/◌, ◌≤◌, length};
ghost use Rattle.solids.specs.Refusals.{in_order, at_each};
ghost use Rattle.solids.specs.Solids as So;
ghost use Rattle.solids.specs.Admission as Ad;
ghost use Rattle.solids.specs.Words as Sw;

use points::Point;
use solids::{Refusal, Verdict};

// Check 6 on facets whose corners are all there.
fn check_closure(corners: &[u32]) -> Verdict
    requires { Sw.Low corners.now × (length corners.now ≤ 768) }
    ensures { result ≡ at_each (length corners.now / 3) (Ad.check_half_edges (So.solid [] corners.now)) }
{
    let mut counts = [0u16; 16384];
    tally::tally(&mut counts, corners);
    tally::check_half_edges(&counts, corners)
}

// Checks 1 and 2, which look at lengths alone.
#[tactic(auto, unfolding(solids::specs::Refusals::in_order, solids::specs::Admission::check_lengths, solids::specs::Admission::check_sizes, solids::specs::Admission::uneven, solids::specs::Admission::too_many))]
fn check_lists(points: &[f64], corners: &[u32]) -> Verdict
    ensures { result ≡ in_order (Ad.check_lengths (So.lent points.entry corners.entry) ∷ Ad.check_sizes (So.lent points.entry corners.entry) ∷ []) }
{
    if points.len() % 3 != 0 {
        return Err(Refusal::Uneven.on_solid(0));
    }
    if corners.len() % 3 != 0 {
        return Err(Refusal::Uneven.on_solid(0));
    }
    if points.len() / 3 > 128 {
        return Err(Refusal::TooMany.on_solid(0));
    }
    if corners.len() / 3 > 256 {
        return Err(Refusal::TooMany.on_solid(0));
    }
    Ok(())
}

// Admission: accepted, or refused by the first check that refuses.
pub fn admit(points: &[f64], corners: &[u32]) -> Verdict
    ensures { Ad.Judged (So.lent points.entry corners.entry) result }
{
    check_lists(points, corners)?;
    faults::check_points(true, points)?;
    faults::check_points(false, points)?;
    faults::check_corners(points, corners)?;
    check_closure(corners)
}

// A point's admission, by 3 and 4.
pub fn admit_point(v: Point) -> Verdict
    ensures { Ad.AdmitPoint v result }
{
    if faults::bad_point(true, v) {
        return Err(Refusal::Blank.on_point());
    }
    if faults::bad_point(false, v) {
        return Err(Refusal::OutOfRange.on_point());
    }
    Ok(())
}
