// Marks by edge, from the lists of crossings; and behind them marks by facet, from those. A mark too many would do no harm.
ghost use Rattle.std.specs.Prelude.{◌≡◌, ℕ, ◌+◌, ◌*◌, ◌<◌, ◌≤◌, length, get_or};
ghost use Rattle.layouts.specs.Words as La;
ghost use Rattle.vertex_table.specs.Words as T;
ghost use Rattle.kept_lists.specs.Words as K;

use composite_ends::rows;
use layouts::{Sizes, pack};

// Where the crossing in column c of row r is marked.
fn mark_at(z: Sizes, r: usize, c: usize) -> usize
    requires { La.Sized z × (r < z.ea + z.fa) × (c < La.columns z r) }
    ensures at { result ≡ K.mark_at z r c }
    ensures small { result < 256 * (z.ea + z.eb) }
{
    if r < z.ea {
        return 256 * r + c;
    }
    256 * (z.ea + c) + (r - z.ea)
}

fn mark_row(first: &[u32], crossed: &[u32], z: Sizes, r: usize, marks: &mut [u64])
    requires { La.Columns z first.now crossed.now × (r < z.ea + z.fa) × (4 * (z.ea + z.eb) ≤ length marks.old) }
    ensures listed { K.Listed z first.now crossed.now marks.new r (get_or first.now (r + 1) 0) }
    ensures more { K.More marks.old marks.new }
{
    for k in first[r] as usize..first[r + 1] as usize {
        let c = pack::column(crossed[k]);
        marks::mark(marks, mark_at(z, r, c));
    }
}

// Every crossing of the lists.
fn fill_edges(first: &[u32], crossed: &[u32], z: Sizes, marks: &mut [u64])
    requires { La.Columns z first.now crossed.now × (4 * (z.ea + z.eb) ≤ length marks.old) }
    ensures { (r : ℕ) → r < z.ea + z.fa → K.Listed z first.now crossed.now marks.new r (get_or first.now (r + 1) 0) }
{
    for r in 0..z.ea + z.fa {
        mark_row(first, crossed, z, r, marks);
    }
}

// The row of facet x.
pub fn facet_row(z: Sizes, x: usize) -> usize
    requires { La.Sized z × (x < z.fa + z.fb) }
    ensures { result ≡ K.facet_row z x }
{
    z.ea + z.eb + x
}

// Where facet x is marked in the row of facet i of the other solid.
fn mirror(z: Sizes, x: usize, i: usize) -> usize
    requires { La.Sized z × (x < z.fa + z.fb) × (i < T.others z x) }
    ensures at { result ≡ K.mirror z x i }
    ensures small { result < 256 * (z.ea + z.eb + z.fa + z.fb) }
{
    if x < z.fa {
        return 256 * facet_row(z, z.fa + i) + x;
    }
    256 * facet_row(z, i) + (x - z.fa)
}

// The facets that half-edge h of facet x crosses. Its marks are read while others are made: what was marked is, and that is all that counts.
fn mark_half(halves: &[u32], z: Sizes, x: usize, h: usize, marks: &mut [u64])
    requires halves { T.Halves halves.now z × (x < z.fa + z.fb) × (3 * x ≤ h) × (h < 3 * x + 3) }
    requires fb_in_bounds { (4 * (z.ea + z.eb + z.fa + z.fb) ≤ length marks.old) × (length marks.old ≤ 65536) }
    ensures spread { K.Spread z halves.now marks.old marks.new x h (T.others z x) }
    ensures more { K.More marks.old marks.new }
{
    let row = 256 * rows::line_row(halves, z, h);
    let end = row + rows::line_many(z, h);
    let here = 256 * facet_row(z, x);
    // No `for`: the next place is the next mark, and an iterator would hold the marks that the loop adds to.
    let mut i = marks::first(marks, row, end);
    while i < end {
        let c = i - row;
        let there = mirror(z, x, c);
        marks::mark(marks, here + c);
        marks::mark(marks, there);
        i = marks::next(marks, i + 1, end);
    }
}

// Every half-edge of every facet.
fn fill_facets(halves: &[u32], z: Sizes, marks: &mut [u64])
    requires { T.Halves halves.now z × (4 * (z.ea + z.eb + z.fa + z.fb) ≤ length marks.old) × (length marks.old ≤ 65536) }
    ensures spread { (x h : ℕ) → x < z.fa + z.fb → 3 * x ≤ h → h < 3 * x + 3 → K.Spread z halves.now marks.old marks.new x h (T.others z x) }
    ensures more { K.More marks.old marks.new }
{
    for x in 0..z.fa + z.fb {
        for h in 3 * x..3 * x + 3 {
            mark_half(halves, z, x, h, marks);
        }
    }
}

// Both, for whatever number the first crossing has.
pub fn fill(first: &[u32], crossed: &[u32], halves: &[u32], z: Sizes, marks: &mut [u64])
    requires columns { La.Columns z first.now crossed.now × T.Halves halves.now z }
    requires fb_in_bounds { (4 * (z.ea + z.eb + z.fa + z.fb) ≤ length marks.old) × (length marks.old ≤ 65536) }
    ensures { (base : ℕ) → K.Marked halves.now z (K.rows first.now crossed.now base) marks.new }
{
    fill_edges(first, crossed, z, marks);
    fill_facets(halves, z, marks);
}
