// The crossings that there are: of edges of A with facets of B, and behind them of facets of A with edges of B, row by row in listing order, each as
// one number with its column and its count. Only what boxes leave is worked out.
// Lists that are written stay parameters, for the reason that crates/edges gives.
#![tactic(auto)]

ghost use Rattle.std.specs.Prelude.{◌≡◌, true, ◌+◌, ◌<◌, ◌≤◌, nat_abs, length};
ghost use Rattle.list_words.specs.Lists.{nonzero};
ghost use Rattle.solids.specs.Admission as Ad;
ghost use Rattle.solids.specs.Refusals.{accepted};
ghost use Rattle.edges.specs.Readers.{solid_of};
ghost use Rattle.layouts.specs.Words as La;
ghost use Rattle.bounds.specs.Words as Bo;
ghost use Rattle.crossing_rows.specs.Words as Cr;
ghost use Rattle.crossing_groups.specs.Words as Cg;

use bounds::{Bounds, Far, Thing};
use box_lists::Near;
use crossing_groups::Search;
use crossing_rows::Full;
use edges::ReadySolid;
use layouts::Sizes;

// All rows of a search, with the columns that are near the box round A and the boxes gathered first. Where they are few, groups do not pay.
fn find_kind(
    search: Search,
    own: Bounds,
    a: ReadySolid,
    b: ReadySolid,
    first: &mut [u32],
    crossed: &mut [u32],
) -> Result<usize, Full>
    requires admitted { (Ad.admission (solid_of a) ≡ accepted) × (Ad.admission (solid_of b) ≡ accepted) }
    requires searching { Cg.Searching search (solid_of a) (solid_of b) }
    requires own_value { own ≡ Bo.whole (solid_of a) }
    requires end_in_bounds { (search.end < length first.old) × (length first.old ≤ 65536) × (length crossed.old ≤ 262144) }
    requires listing { La.Listing (Cr.row search.sign (solid_of a) (solid_of b)) search.begin first.old crossed.old }
    ensures reached { Cg.Reached search.sign (solid_of a.entry) (solid_of b.entry) search.end first.new crossed.new result }
    ensures same { (length first.new ≡ length first.old) × (length crossed.new ≡ length crossed.old) }
{
    let mut columns = [0u32; 384];
    let mut boxes = [0.0f64; 2304];
    let thing = search.thing;
    let many = box_lists::gather(
        Far::Apart,
        own,
        thing,
        b,
        search.many,
        &mut columns,
        &mut boxes,
    );
    let near = Near {
        solid: b,
        thing,
        columns: &columns[..many],
        boxes: &boxes,
    };
    if many <= bounds::GROUP {
        crossing_groups::find_rows(search, a, &near, first, crossed)
    } else {
        crossing_groups::find_groups(search, a, &near, first, crossed)
    }
}

// All crossings: where each row starts, and the last one ends, in `first`, and the crossings in `crossed`.
pub fn find(
    sign: i32,
    z: Sizes,
    a: ReadySolid,
    b: ReadySolid,
    first: &mut [u32],
    crossed: &mut [u32],
) -> Result<usize, Full>
    requires admitted { (Ad.admission (solid_of a) ≡ accepted) × (Ad.admission (solid_of b) ≡ accepted) }
    requires sign_bound { (nat_abs sign ≤ 1) × (nonzero sign ≡ true) }
    requires z_value { (z ≡ La.sizes (solid_of a) (solid_of b)) × La.Sized z }
    requires fa_in_bounds { (z.ea + z.fa < length first.old) × (length first.old ≤ 65536) × (length crossed.old ≤ 262144) }
    ensures answered { Cr.Answered sign (solid_of a.entry) (solid_of b.entry) first.new crossed.new result }
    ensures same { (length first.new ≡ length first.old) × (length crossed.new ≡ length crossed.old) }
{
    first[0] = 0;
    let own = bounds::whole(a);
    let other = bounds::whole(b);
    let of_edges = Search {
        sign,
        other,
        thing: Thing::Facets,
        many: z.fb,
        edges: z.ea,
        begin: 0,
        end: z.ea,
    };
    find_kind(of_edges, own, a, b, first, crossed)?;
    let of_facets = Search {
        sign,
        other,
        thing: Thing::Edges,
        many: z.eb,
        edges: z.ea,
        begin: z.ea,
        end: z.ea + z.fa,
    };
    find_kind(of_facets, own, a, b, first, crossed)
}
