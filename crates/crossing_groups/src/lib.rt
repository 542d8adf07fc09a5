// The crossings of rows of one kind with some columns: of one row, of rows that have the same columns, and of rows group by group, each group with
// those of the columns that are near the box round it.
#![tactic(auto)]

ghost use Rattle.std.specs.Prelude.{◌≡◌, cond, [], ◌-◌, ◌<◌, ◌≤◌, nat_abs, length};
ghost use Rattle.solids.specs.Solids as So;
ghost use Rattle.solids.specs.Admission as Ad;
ghost use Rattle.solids.specs.Refusals.{accepted};
ghost use Rattle.edges.specs.Readers.{solid_of};
ghost use Rattle.layouts.specs.Words as La;
ghost use Rattle.bounds.specs.declared.Far.TheVariants.{Apart};
ghost use Rattle.bounds.specs.Words as Bo;
ghost use Rattle.crossing_rows.specs.Words as Cr;
ghost use Rattle.crossing_groups.specs.Words as Cg;

use bounds::{Bounds, Far, Thing};
use box_lists::Near;
use crossing_rows::{Full, Row};
use edges::ReadySolid;

// Rows of one kind, from `begin` to `end`: what their columns are and how many, how many edges of A come before its facets, and the box round B's
// vertices. Counts are multiplied by `sign`.
#[derive(Clone, Copy)]
pub struct Search {
    pub sign: i32,
    pub other: Bounds,
    pub thing: Thing,
    pub many: usize,
    pub edges: usize,
    pub begin: usize,
    pub end: usize,
}

// The columns of one row, behind the first `from` crossings. No column is looked at where the row's box is apart from B's.
fn find_row(
    row: Row,
    search: Search,
    near: &Near<'_>,
    from: usize,
    crossed: &mut [u32],
) -> Result<usize, Full>
    requires row { (near.now.thing ≡ Cr.across row) × Cr.Lying Bo.Present row }
    requires sign_bound { (nat_abs search.sign ≤ 1) × (search.other ≡ Bo.whole (solid_of near.now.solid)) }
    requires from_in_bounds { (from ≤ length crossed.old) × (length crossed.old ≤ 262144) }
    ensures added { Cr.Added crossed.old from (Cr.crossing search.sign (Cr.count_of row (solid_of near.now.solid)) near.now.columns.now) crossed.new result }
    ensures same { length crossed.new ≡ length crossed.old }
{
    let b = crossing_rows::round(row);
    if bounds::apart(b, search.other) {
        return Ok(from);
    }
    let mut k = from;
    for &c in near.columns {
        let column = c as usize;
        if !box_lists::far_at(Far::Apart, b, near.boxes, column) {
            k = crossing_rows::add(row, search.sign, near.solid, column, k, crossed)?;
        }
    }
    Ok(k)
}

// All rows of a search, with the same columns.
pub fn find_rows(
    search: Search,
    a: ReadySolid,
    near: &Near<'_>,
    first: &mut [u32],
    crossed: &mut [u32],
) -> Result<usize, Full>
    requires admitted { Ad.admission (solid_of a) ≡ accepted }
    requires searching { Cg.Searching search (solid_of a) (solid_of near.now.solid) }
    requires offered { Cg.Offered search (solid_of a) near.now }
    requires end_in_bounds { (search.end < length first.old) × (length first.old ≤ 65536) × (length crossed.old ≤ 262144) }
    requires listing { La.Listing (Cr.row search.sign (solid_of a) (solid_of near.now.solid)) search.begin first.old crossed.old }
    ensures reached { Cg.Reached search.sign (solid_of a.entry) (solid_of near.now.solid) search.end first.new crossed.new result }
    ensures same { (length first.new ≡ length first.old) × (length crossed.new ≡ length crossed.old) }
{
    for r in search.begin..search.end {
        let row = crossing_rows::row_at(a, search.edges, r);
        let total = find_row(row, search, near, first[r] as usize, crossed)?;
        first[r + 1] = total as u32;
    }
    Ok(first[search.end] as usize)
}

// The box round the rows of a search.
#[tactic(auto, using(bounds::proofs::Things::span_next), unfolding(bounds::specs::Words::span))]
fn round_rows(search: Search, a: ReadySolid) -> Bounds
    requires edges { search.edges ≡ length (So.edges (solid_of a)) }
    requires begin_le_end { (search.begin ≤ search.end) × (search.end ≤ Cr.rows (solid_of a) (solid_of a)) }
    ensures { result ≡ Bo.span (λ i. Cr.round (Cr.row_of (solid_of a.entry) i)) search.begin (search.end - search.begin) }
{
    let mut all = bounds::nowhere();
    for r in search.begin..search.end {
        all = bounds::joined(
            all,
            crossing_rows::round(crossing_rows::row_at(a, search.edges, r)),
        );
    }
    all
}

// Those of the columns that what lies in a box can cross, into another list, and how many they are: none where the box is apart from B's.
#[tactic(auto, using(bounds::proofs::Listing::narrowed_none))]
fn narrow(own: Bounds, other: Bounds, near: &Near<'_>, few: &mut [u32]) -> usize
    requires { length near.now.columns.now ≤ length few.old }
    ensures narrowed { Bo.Narrowed few.new Apart own (Bo.box_at near.now.boxes.now) (cond (Bo.apart own other) [] near.now.columns.now) result }
    ensures same { length few.new ≡ length few.old }
{
    if bounds::apart(own, other) {
        return 0;
    }
    near.narrow(Far::Apart, own, few)
}

// All rows of a search, group by group: each has those of the columns that are near the box round it. Where a group ends, the next begins.
pub fn find_groups(
    search: Search,
    a: ReadySolid,
    near: &Near<'_>,
    first: &mut [u32],
    crossed: &mut [u32],
) -> Result<usize, Full>
    requires admitted { Ad.admission (solid_of a) ≡ accepted }
    requires searching { Cg.Searching search (solid_of a) (solid_of near.now.solid) }
    requires offered { Cg.Offered search (solid_of a) near.now }
    requires end_in_bounds { (search.end < length first.old) × (length first.old ≤ 65536) × (length crossed.old ≤ 262144) }
    requires listing { La.Listing (Cr.row search.sign (solid_of a) (solid_of near.now.solid)) search.begin first.old crossed.old }
    ensures reached { Cg.Reached search.sign (solid_of a.entry) (solid_of near.now.solid) search.end first.new crossed.new result }
    ensures same { (length first.new ≡ length first.old) × (length crossed.new ≡ length crossed.old) }
{
    let mut few = [0u32; 384];
    let mut r = search.begin;
    // Group by group: how far one goes, `group_end` alone says.
    while r < search.end {
        let group = Search {
            begin: r,
            end: bounds::group_end(r, search.end),
            ..search
        };
        let own = round_rows(group, a);
        let n = narrow(own, search.other, near, &mut few);
        let nearer = Near {
            solid: near.solid,
            thing: near.thing,
            columns: &few[..n],
            boxes: near.boxes,
        };
        find_rows(group, a, &nearer, first, crossed)?;
        r = group.end;
    }
    Ok(first[r] as usize)
}
