// The edges of a solid in document 01's order, each with its number, from the table of half-edge counts; and a solid with the list of its edges, from
// which edges and facets are read.
#![tactic(auto)]

ghost use Rattle.std.specs.Prelude.{◌≡◌, [], ◌+◌, ◌<◌, ◌≤◌, length};
ghost use Rattle.solids.specs.Solids as So;
ghost use Rattle.solids.specs.Words as Sw;
ghost use Rattle.edges.specs.Words as Ed;

use crossings::{Edge, Facet};

// A solid with the list of its edges' ends, two numbers an edge.
#[derive(Clone, Copy)]
pub struct ReadySolid<'a> {
    pub points: &'a [f64],
    pub corners: &'a [u32],
    pub ends: &'a [u32],
    ghost ready: { Ed.Ready points.now corners.now ends.now },
}

impl ReadySolid<'_> {
    // Edge number e, from its two ends in the list.
    #[tactic(auto, using(crate::proofs::Ends::start_there, crate::proofs::Ends::stop_there, crate::proofs::Ends::start_below, crate::proofs::Ends::stop_below))]
    pub fn edge(self, e: usize) -> Edge
        requires { e < length (So.edges (So.lent self.points self.corners)) }
        ensures { result ≡ So.edge (So.lent self.entry.points self.entry.corners) (Ed.edge_numbered (So.lent self.entry.points self.entry.corners) e) }
    {
        let start = self.ends[2 * e] as usize;
        let end = self.ends[2 * e + 1] as usize;
        Edge {
            start: vertices::vertex(self.points, start),
            end: vertices::vertex(self.points, end),
        }
    }

    pub fn facet(self, f: usize) -> Facet
        requires { f < So.facets (So.lent self.points self.corners) }
        ensures { result ≡ So.facet (So.lent self.entry.points self.entry.corners) f }
    {
        facets::facet(self.points, self.corners, f)
    }
}

// Corners, and the table in which their half-edges are counted.
#[derive(Clone, Copy)]
pub struct Tally<'a> {
    pub table: &'a [u16; 16384],
    pub corners: &'a [u32],
    ghost tallied: { Sw.Tallied table.now (So.half_edges (So.solid [] corners.now)) },
}

// Does some half-edge join p and q, p being the lower?
#[tactic(auto, using(crate::proofs::Edges::tallied_at), unfolding(solids::specs::Solids::is_edge))]
fn joins(t: Tally, p: u32, q: u32) -> bool
    requires { (p < 128) × (q < 128) }
    ensures { result ≡ So.is_edge (So.half_edges (So.solid [] t.entry.corners.now)) (p, q) }
{
    p < q && (t.table[tally::place(p, q)] > 0 || t.table[tally::place(q, p)] > 0)
}

// The pair p, q, if it is an edge, behind those that are listed. The two lists and their count stay parameters: in a struct of references that are
// written each clause would speak of two moments of each.
#[tactic(auto, using(crate::proofs::Edges::edges_room))]
fn put_edge(
    t: Tally,
    n: u32,
    p: u32,
    q: u32,
    ends: &mut [u32],
    numbers: &mut [u16; 16384],
    k: usize,
) -> usize
    requires p_lt_n { (p < n) × (q < n) × (n ≤ 128) }
    requires listed { Ed.Listed (Ed.edges_seen t.corners.now n p q) ends.old numbers.old k }
    ensures { Ed.Listed (Ed.edges_seen t.entry.corners.now n p (q + 1)) ends.new numbers.new result }
{
    if joins(t, p, q) {
        list_stores::store(ends, 2 * k, p);
        list_stores::store(ends, 2 * k + 1, q);
        let at = tally::place(p, q);
        numbers[at] = k as u16;
        return k + 1;
    }
    k
}

// The edges that start at p.
#[tactic(auto, using(crate::proofs::Edges::edges_row))]
fn put_row(
    t: Tally,
    n: u32,
    p: u32,
    ends: &mut [u32],
    numbers: &mut [u16; 16384],
    k: usize,
) -> usize
    requires p_lt_n { (p < n) × (n ≤ 128) }
    requires listed { Ed.Listed (Ed.edges_seen t.corners.now n p 0) ends.old numbers.old k }
    ensures { Ed.Listed (Ed.edges_seen t.entry.corners.now n (p + 1) 0) ends.new numbers.new result }
{
    let mut many = k;
    for q in 0..n {
        many = put_edge(t, n, p, q, ends, numbers, many);
    }
    many
}

// All edges of a solid of n vertices: how many, their ends, and their numbers by their ends.
#[tactic(auto, using(crate::proofs::Edges::edges_none, crate::proofs::Edges::edges_all))]
pub fn list_edges(t: Tally, n: u32, ends: &mut [u32], numbers: &mut [u16; 16384]) -> usize
    requires n_bound { n ≤ 128 }
    requires listed { Ed.Listed [] ends.old numbers.old 0 }
    ensures { Ed.Listed (Ed.edges_of t.entry.corners.now n) ends.new numbers.new result }
{
    let mut many = 0;
    for p in 0..n {
        many = put_row(t, n, p, ends, numbers, many);
    }
    many
}
