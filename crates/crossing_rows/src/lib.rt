// Rows of crossings: an edge of A with facets of B, or a facet of A with edges of B. A crossing that counts is listed as one number with its column and
// its count.
// Lists that are written stay parameters, for the reason that crates/edges gives.
#![tactic(auto)]

ghost use Rattle.std.specs.Prelude.{◌≡◌, [], ◌∷◌, ◌<◌, ◌≤◌, nat_abs, length};
ghost use Rattle.solids.specs.Solids as So;
ghost use Rattle.edges.specs.Readers.{solid_of};
ghost use Rattle.bounds.specs.Words as Bo;
ghost use Rattle.crossing_rows.specs.Words as Cr;

use bounds::Bounds;
use crossings::{Edge, Facet};
use edges::ReadySolid;

// There is no room for all crossings.
#[derive(Clone, Copy, Debug, PartialEq, Eq)]
pub struct Full;

// An edge of A, whose columns are facets of B, or a facet of A, whose columns are edges of B.
#[derive(Clone, Copy)]
pub enum Row {
    OfEdge(Edge),
    OfFacet(Facet),
}

pub fn round(row: Row) -> Bounds
    ensures { result ≡ Cr.round row }
{
    match row {
        Row::OfEdge(e) => bounds::round_edge(e),
        Row::OfFacet(f) => bounds::round_facet(f),
    }
}

#[tactic(auto, unfolding(crate::specs::Words::row_of))]
pub fn row_at(a: ReadySolid, edges: usize, r: usize) -> Row
    requires { («edges» ≡ length (So.edges (solid_of a))) × (r < Cr.rows (solid_of a) (solid_of a)) }
    ensures { result ≡ Cr.row_of (solid_of a.entry) r }
{
    if r < edges {
        Row::OfEdge(a.edge(r))
    } else {
        Row::OfFacet(a.facet(r - edges))
    }
}

#[tactic(auto, unfolding(crate::specs::Words::count_of))]
fn count_of(row: Row, b: ReadySolid, column: usize) -> i32
    requires { column < Bo.many (Cr.across row) (solid_of b) }
    ensures value { result ≡ Cr.count_of row (solid_of b.entry) column }
    ensures small { nat_abs result ≤ 2 }
{
    match row {
        Row::OfEdge(e) => crossing_counts::ef(e, b.facet(column)),
        Row::OfFacet(f) => crossing_counts::fe(f, b.edge(column)),
    }
}

// One column's crossing, if its count is not 0, behind the first k; how many there are then.
pub fn add(
    row: Row,
    sign: i32,
    b: ReadySolid,
    column: usize,
    k: usize,
    crossed: &mut [u32],
) -> Result<usize, Full>
    requires column_in_bounds { column < Bo.many (Cr.across row) (solid_of b) }
    requires sign_bound { (nat_abs sign ≤ 1) × (k ≤ length crossed.old) × (length crossed.old ≤ 262144) }
    ensures added { Cr.Added crossed.old k (Cr.crossing sign (Cr.count_of row (solid_of b.entry)) (column ∷ [])) crossed.new result }
    ensures same { length crossed.new ≡ length crossed.old }
{
    let n = sign * count_of(row, b, column);
    if n == 0 {
        return Ok(k);
    }
    if crossed.len() <= k {
        return Err(Full);
    }
    crossed[k] = layouts::pack::packed(column, n);
    Ok(k + 1)
}
