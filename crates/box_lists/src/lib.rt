// The boxes of a solid's edges or facets, in a list of six numbers each, and those of them that are near a box.
// Lists that are written stay parameters, for the reason that crates/edges gives.
#![tactic(auto)]

ghost use Rattle.std.specs.Prelude.{◌≡◌, ℕ, ◌+◌, ◌*◌, ◌<◌, ◌≤◌, length, get_or};
ghost use Rattle.std.proofs.lemmas.List.Edits.{sets};
ghost use Rattle.list_words.specs.Lists.{up_to};
ghost use Rattle.solids.specs.Admission as Ad;
ghost use Rattle.solids.specs.Refusals.{accepted};
ghost use Rattle.edges.specs.Readers.{solid_of};
ghost use Rattle.bounds.specs.Words as Bo;

use bounds::{Bounds, Far, Thing};
use edges::ReadySolid;

// Some of a solid's edges or facets, by their numbers, with the boxes of all of them: those that are near what is looked at.
#[derive(Clone, Copy)]
pub struct Near<'a> {
    pub solid: ReadySolid<'a>,
    pub thing: Thing,
    pub columns: &'a [u32],
    pub boxes: &'a [f64],
    ghost boxed: { Bo.Boxed boxes.now thing (solid_of solid) },
    ghost among: { Bo.Among columns.now thing (solid_of solid) },
    ghost admitted: { Ad.admission (solid_of solid) ≡ accepted },
}

// Is the box beside number j of the list? By x first.
#[tactic(auto, unfolding(bounds::specs::Words::beside, bounds::specs::Words::apart_on))]
pub fn beside_at(b: Bounds, boxes: &[f64], j: usize) -> bool
    requires { 6 * j + 6 ≤ length boxes.now }
    ensures { result ≡ Bo.beside b (Bo.box_at boxes.now j) }
{
    bounds::clear(b.low.x, b.high.x, boxes[6 * j], boxes[6 * j + 3])
        || bounds::clear(b.low.y, b.high.y, boxes[6 * j + 1], boxes[6 * j + 4])
}

// Is the box far from number j of the list?
#[tactic(auto, unfolding(bounds::specs::Words::far, bounds::specs::Words::apart, bounds::specs::Words::apart_on))]
pub fn far_at(far: Far, b: Bounds, boxes: &[f64], j: usize) -> bool
    requires { 6 * j + 6 ≤ length boxes.now }
    ensures { result ≡ Bo.far «far» b (Bo.box_at boxes.now j) }
{
    beside_at(b, boxes, j)
        || match far {
            Far::Apart => bounds::clear(b.low.z, b.high.z, boxes[6 * j + 2], boxes[6 * j + 5]),
            Far::Below => boxes[6 * j + 5] < b.low.z,
            Far::Above => b.high.z < boxes[6 * j + 2],
        }
}

// The box round edge or facet number i.
#[tactic(auto, unfolding(bounds::specs::Words::box_of))]
pub fn box_of(thing: Thing, s: ReadySolid, i: usize) -> Bounds
    requires { i < Bo.many thing (solid_of s) }
    ensures { result ≡ Bo.box_of thing (solid_of s.entry) i }
{
    match thing {
        Thing::Edges => bounds::round_edge(s.edge(i)),
        Thing::Facets => bounds::round_facet(s.facet(i)),
    }
}

fn put(b: Bounds, boxes: &mut [f64], at: usize)
    requires { at + 6 ≤ length boxes.old }
    ensures { boxes.new ≡ sets boxes.old at (Bo.six b) }
{
    list_stores::put_point(b.low, boxes, at);
    list_stores::put_point(b.high, boxes, at + 3);
}

// The boxes of all edges or facets into a list, each at its number; the numbers of those that are not far from `b` into another, and how many they are.
pub fn gather(
    far: Far,
    b: Bounds,
    thing: Thing,
    s: ReadySolid,
    many: usize,
    columns: &mut [u32],
    boxes: &mut [f64],
) -> usize
    requires many_value { (many ≡ Bo.many thing (solid_of s)) × (many ≤ 384) }
    requires many_in_bounds { (many ≤ length columns.old) × (6 * many ≤ length boxes.old) }
    ensures narrowed { Bo.Narrowed columns.new «far» b (Bo.box_of thing (solid_of s.entry)) (up_to many) result }
    ensures boxed { Bo.Boxed boxes.new thing (solid_of s.entry) }
    ensures same { (length columns.new ≡ length columns.old) × (length boxes.new ≡ length boxes.old) }
{
    let mut k = 0;
    for i in 0..many {
        put(box_of(thing, s, i), boxes, 6 * i);
        if !far_at(far, b, boxes, i) {
            columns[k] = i as u32;
            k += 1;
        }
    }
    k
}

// Those of some columns that are not far from `b`, in order, into another list, and how many they are.
pub fn narrow(far: Far, b: Bounds, boxes: &[f64], columns: &[u32], few: &mut [u32]) -> usize
    requires columns_in_bounds { (length columns.now ≤ length few.old) × (length columns.now ≤ 384) }
    requires there { (i : ℕ) → i < length columns.now → 6 * get_or columns.now i 0 + 6 ≤ length boxes.now }
    ensures narrowed { Bo.Narrowed few.new «far» b (Bo.box_at boxes.now) columns.now result }
    ensures same { length few.new ≡ length few.old }
{
    let mut k = 0;
    for &c in columns {
        if !far_at(far, b, boxes, c as usize) {
            few[k] = c;
            k += 1;
        }
    }
    k
}

impl Near<'_> {
    // Those of the columns that are not far from `b`.
    pub fn narrow(&self, far: Far, b: Bounds, few: &mut [u32]) -> usize
        requires { length self.now.columns.now ≤ length few.old }
        ensures narrowed { Bo.Narrowed few.new «far» b (Bo.box_at self.now.boxes.now) self.now.columns.now result }
        ensures same { length few.new ≡ length few.old }
    {
        narrow(far, b, self.boxes, self.columns, few)
    }
}
