// What an end of a composite edge is read from: a vertex, or a crossing that is looked up in its row; and what a half-edge's numbers say.
#![tactic(auto)]

pub mod composite;
pub mod places;
pub mod rows;

ghost use Rattle.std.specs.Prelude.{◌≡◌, ◌+◌, ◌<◌, ◌≤◌, pos, nat_abs, length, get_or};
ghost use Rattle.layouts.specs.Words as La;
ghost use Rattle.vertex_table.specs.Words as T;
ghost use Rattle.kept_lists.specs.Words as K;

use layouts::{Plan, pack};
use results::End;

// The crossings that are kept of two solids: where each row of them starts, the crossings, and the half-edges that they are looked up by.
#[derive(Clone, Copy)]
pub struct Crossed<'a> {
    pub plan: Plan,
    pub first: &'a [u32],
    pub crossed: &'a [u32],
    pub halves: &'a [u32],
    pub ghost named: { T.Halves halves.now plan.sizes },
    pub ghost listed: { K.Crossings plan.sizes (K.rows first.now crossed.now plan.base) },
}

// What is kept of two solids for their result: the crossings; the inclusions and the numbers of A's vertices and then B's; which facets each edge crosses
// and, behind them, which facets have pieces with which.
#[derive(Clone, Copy)]
pub struct Kept<'a> {
    pub crossings: Crossed<'a>,
    pub inc: &'a [i16],
    pub num: &'a [u32],
    pub marks: &'a [u64],
    pub ghost numbered: { K.Vertices crossings.plan.sizes inc.now num.now },
    pub ghost marked: { K.Edges crossings.plan.sizes (K.rows crossings.first.now crossings.crossed.now crossings.plan.base) marks.now },
}

// What stands where nothing crosses.
pub const BLANK: End = End {
    vertex: 0,
    count: 0,
};

// An end, its count negated if `flip`.
fn end_of(vertex: u32, inclusion: i32, flip: bool) -> End
    requires { nat_abs inclusion ≤ 257 }
    ensures { result ≡ T.flip flip (record { vertex = vertex; count = inclusion }) }
{
    if flip {
        let n = 0 - inclusion;
        return End { vertex, count: n };
    }
    End {
        vertex,
        count: inclusion,
    }
}

// Vertex i, A's or, from A's vertex count on, B's.
pub fn vertex(inc: &[i16], num: &[u32], i: usize, flip: bool) -> End
    requires { (i < length inc.now) × (i < length num.now) × (nat_abs (get_or inc.now i (pos 0)) ≤ 257) }
    ensures { result ≡ T.flip flip (K.vertex inc.now num.now i) }
{
    end_of(num[i], inc[i] as i32, flip)
}

// The crossing at place k.
fn at_place(crossed: &[u32], base: usize, k: usize, flip: bool) -> End
    requires { (k < length crossed.now) × (base + k ≤ 1048576) }
    ensures { result ≡ T.flip flip (record { vertex = base + k; count = La.inclusion (get_or crossed.now k 0) }) }
{
    let v = base + k;
    let n = pack::inclusion(crossed[k]);
    end_of(v as u32, n, flip)
}

// What stands in column c of row r.
pub fn crossing(first: &[u32], crossed: &[u32], base: usize, r: usize, c: usize, flip: bool) -> End
    requires { (r + 1 < length first.now) × (get_or first.now (r + 1) 0 ≤ length crossed.now) × (base + length crossed.now ≤ 1048576) }
    ensures { result ≡ T.flip flip (K.crossing (K.rows first.now crossed.now base) r c) }
{
    for k in first[r] as usize..first[r + 1] as usize {
        if pack::column(crossed[k]) == c {
            return at_place(crossed, base, k, flip);
        }
    }
    BLANK
}

impl Kept<'_> {
    ghost use Rattle.composite_ends.specs.Words as Ce;

    // `vertex` of what is kept.
    pub fn vertex(&self, i: usize, flip: bool) -> End
        requires { (i < length self.now.inc.now) × (i < length self.now.num.now) }
        ensures { result ≡ T.flip flip (Ce.vertex_of self.now i) }
    {
        vertex(self.inc, self.num, i, flip)
    }
}

impl Crossed<'_> {
    ghost use Rattle.composite_ends.specs.Words as Ce;

    // `crossing` of what is kept.
    pub fn crossing(&self, r: usize, c: usize, flip: bool) -> End
        requires { (r + 1 < length self.now.first.now) × (get_or self.now.first.now (r + 1) 0 ≤ length self.now.crossed.now) }
        ensures { result ≡ T.flip flip (K.crossing (Ce.rows_of self.now) r c) }
    {
        crossing(self.first, self.crossed, self.plan.base, r, c, flip)
    }
}
