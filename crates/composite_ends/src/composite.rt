// Which end stands where on a composite edge: of an edge its start, its end and its crossings; of two facets A's three half-edges and B's three.
ghost use Rattle.std.specs.Prelude.{◌≡◌, ◌+◌, ◌*◌, ◌<◌, length, take};
ghost use mathlib.Core.List.{map};
ghost use Rattle.vertex_table.specs.Words as T;
ghost use Rattle.kept_lists.specs.Words as K;
ghost use Rattle.composite_ends.specs.Words as Ce;

use crate::{BLANK, Crossed, Kept, places};
use layouts::Sizes;
use results::End;

// The start (k is 1) or the end (k is 2) of half-edge h's edge.
pub fn corner(
    inc: &[i16],
    num: &[u32],
    halves: &[u32],
    z: Sizes,
    h: usize,
    k: usize,
    flip: bool,
) -> End
    requires { K.Vertices z inc.now num.now × T.Halves halves.now z × (3 * h + k < length halves.now) × (K.corner_at halves.now z h k < z.va + z.vb) }
    ensures { result ≡ T.flip flip (K.vertex inc.now num.now (K.corner_at halves.now z h k)) }
{
    let v = places::number_at(halves, 3 * h + k);
    if h < 3 * z.fa {
        return crate::vertex(inc, num, v, flip);
    }
    crate::vertex(inc, num, z.va + v, flip)
}

impl Kept<'_> {
    // The start of half-edge h's edge.
    pub fn start(&self, h: usize, flip: bool) -> End
        requires { Ce.IsHalf self.now.crossings h }
        ensures { result ≡ T.flip flip (Ce.start_of self.now h) }
    {
        let c = self.crossings;
        corner(self.inc, self.num, c.halves, c.plan.sizes, h, 1, flip)
    }

    // Its end.
    pub fn stop(&self, h: usize, flip: bool) -> End
        requires { Ce.IsHalf self.now.crossings h }
        ensures { result ≡ T.flip flip (Ce.stop_of self.now h) }
    {
        let c = self.crossings;
        corner(self.inc, self.num, c.halves, c.plan.sizes, h, 2, flip)
    }
}

impl Crossed<'_> {
    // The crossing of half-edge h's edge with facet i of the other solid.
    pub fn line_end(&self, h: usize, i: usize, flip: bool) -> End
        requires { Ce.IsHalf self.now h × (i < K.line_many self.now.plan.sizes h) }
        ensures { result ≡ T.flip flip (Ce.line_end_of self.now h i) }
    {
        let e = places::edge_of(self.halves, h);
        if h < 3 * self.plan.sizes.fa {
            return self.crossing(e, i, flip);
        }
        self.crossing(self.plan.sizes.ea + i, e, flip)
    }

    // "A's three half-edges (minus the inclusion with B's facet, signed as half-edges)": half-edge h with facet g of B.
    pub fn a_end(&self, g: usize, h: usize, turn: bool) -> End
        requires { h < 3 * self.now.plan.sizes.fa }
        ensures { result ≡ T.flip turn (Ce.a_end_of self.now g h) }
    {
        let e = places::edge_of(self.halves, h);
        let t = places::against(self.halves, h);
        self.crossing(e, g, turn == t)
    }

    // "then B's three (the inclusion with A's facet, signed so)": facet f of A with half-edge h.
    pub fn b_end(&self, f: usize, h: usize, turn: bool) -> End
        requires { (f < self.now.plan.sizes.fa) × Ce.IsHalf self.now h }
        ensures { result ≡ T.flip turn (Ce.b_end_of self.now f h) }
    {
        let e = places::edge_of(self.halves, h);
        let t = places::against(self.halves, h);
        self.crossing(self.plan.sizes.ea + f, e, turn != t)
    }

    // The six ends of facet f of A with facet g of B, first in an array as crates/joined_ends takes it.
    fn pair_ends(&self, f: usize, g: usize, turn: bool) -> [End; 8]
        requires { (f < self.now.plan.sizes.fa) × (g < self.now.plan.sizes.fb) }
        ensures { take 6 result ≡ map (T.flip turn) (Ce.pair_ends_of self.now f g) }
    {
        let m = self.plan.sizes.fa + g;
        [
            self.a_end(g, 3 * f, turn),
            self.a_end(g, 3 * f + 1, turn),
            self.a_end(g, 3 * f + 2, turn),
            self.b_end(f, 3 * m, turn),
            self.b_end(f, 3 * m + 1, turn),
            self.b_end(f, 3 * m + 2, turn),
            BLANK,
            BLANK,
        ]
    }

    // Those of facet x, A's or, from A's facet count on, B's, with facet i of the other solid.
    pub fn side_ends(&self, x: usize, i: usize, turn: bool) -> [End; 8]
        requires { Ce.IsFacet self.now x × Ce.IsOther self.now x i }
        ensures { take 6 result ≡ map (T.flip turn) (Ce.side_ends_of self.now x i) }
    {
        let fa = self.plan.sizes.fa;
        if x < fa {
            return self.pair_ends(x, i, turn);
        }
        self.pair_ends(i, x - fa, turn)
    }
}
