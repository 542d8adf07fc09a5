// Half-edges counted in a table of 128 rows of 128, which is also where the closure test looks.
#![tactic(auto)]

ghost use Rattle.std.specs.Prelude.{◌≡◌, [], ◌+◌, ◌*◌, ◌/◌, ◌<◌, ◌≤◌, length, get_or, set};
ghost use Rattle.list_words.specs.Lists.{any};
ghost use Rattle.solids.specs.Refusals.{at_each};
ghost use Rattle.solids.specs.Solids as So;
ghost use Rattle.solids.specs.Admission as Ad;
ghost use Rattle.solids.specs.Words as Sw;

use solids::{Refusal, Verdict};

pub fn place(p: u32, q: u32) -> usize
    requires { (p < 128) × (q < 128) }
    ensures value { result ≡ 128 * p + q }
    ensures inside { result < 16384 }
{
    128 * (p as usize) + (q as usize)
}

// One half-edge more.
fn count(table: &mut [u16; 16384], p: u32, q: u32)
    requires { (p < 128) × (q < 128) × (get_or table.old (128 * p + q) 0 < 65535) }
    ensures { table.new ≡ set table.old (128 * p + q) (get_or table.old (128 * p + q) 0 + 1) }
{
    table[place(p, q)] += 1;
}

// The three half-edges of facet f.
fn count_facet(table: &mut [u16; 16384], corners: &[u32], f: usize)
    requires low { Sw.Low corners.now × (f < length corners.now / 3) × (length corners.now ≤ 768) }
    requires tallied { Sw.Tallied table.old (Sw.counted corners.now f) }
    ensures { Sw.Tallied table.new (Sw.counted corners.now (f + 1)) }
{
    let p = corners[3 * f];
    let q = corners[3 * f + 1];
    let r = corners[3 * f + 2];
    count(table, p, q);
    count(table, q, r);
    count(table, r, p);
}

// All half-edges, counted into a table of zeros.
pub fn tally(table: &mut [u16; 16384], corners: &[u32])
    requires { Sw.Low corners.now × (length corners.now ≤ 768) × Sw.Tallied table.old [] }
    ensures { Sw.Tallied table.new (So.half_edges (So.solid [] corners.now)) }
{
    for f in 0..corners.len() / 3 {
        count_facet(table, corners, f);
    }
}

// Do the two directions between p and q differ in number?
fn differ(table: &[u16; 16384], corners: &[u32], p: u32, q: u32) -> bool
    requires { (p < 128) × (q < 128) × Sw.Tallied table.now (So.half_edges (So.solid [] corners.now)) }
    ensures { result ≡ Ad.differ (So.half_edges (So.solid [] corners.now)) (p, q) }
{
    table[place(p, q)] != table[place(q, p)]
}

// Does one of the three half-edges of facet f differ from its way back in number?
#[tactic(auto, unfolding(list_words::specs::Lists::any))]
fn facet_differs(table: &[u16; 16384], corners: &[u32], f: usize) -> bool
    requires { Sw.Low corners.now × (f < length corners.now / 3) × Sw.Tallied table.now (So.half_edges (So.solid [] corners.now)) }
    ensures { result ≡ any (Ad.differ (So.half_edges (So.solid [] corners.now))) (So.facet_half_edges (So.solid [] corners.now) f) }
{
    let p = corners[3 * f];
    let q = corners[3 * f + 1];
    let r = corners[3 * f + 2];
    differ(table, corners, p, q) || differ(table, corners, q, r) || differ(table, corners, r, p)
}

// The first facet with such a half-edge, told as the place of 6.
pub fn check_half_edges(table: &[u16; 16384], corners: &[u32]) -> Verdict
    requires { Sw.Low corners.now × Sw.Tallied table.now (So.half_edges (So.solid [] corners.now)) }
    ensures { result ≡ at_each (length corners.now / 3) (Ad.check_half_edges (So.solid [] corners.now)) }
{
    for f in 0..corners.len() / 3 {
        if facet_differs(table, corners, f) {
            return Err(Refusal::Unmatched.on_solid(f));
        }
    }
    Ok(())
}
