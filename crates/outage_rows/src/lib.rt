// An outage row, the six bounds that it gives, and what the call that makes a box of it answers. What they mean is in specs/; the code that reads a
// row and makes its box is the crate `outage_boxes`.
#![tactic(auto)]

ghost use Rattle.std.specs.Prelude.{◌≡◌};
ghost use Rattle.outage_rows.specs.Boxed as Bo;

use points::Point;
use solids::Answer;

// A bound as it stands in a row: its number, and whether its flag is set, which says that the bound is open.
#[derive(Clone, Copy)]
pub struct Bound {
    pub value: f64,
    pub flag: bool,
}

// The two bounds on one axis.
#[derive(Clone, Copy)]
pub struct Range {
    pub low: Bound,
    pub high: Bound,
}

// By axis, as a point's coordinates are: an array would need a number for each name.
#[derive(Clone, Copy)]
pub struct Row {
    pub unit: u16,
    pub x: Range,
    pub y: Range,
    pub z: Range,
}

// From low to high on each axis, with the limit for what was open.
#[derive(Clone, Copy)]
pub struct Span {
    pub low: Point,
    pub high: Point,
}

// The answer, the sizes of the box, and the unit that the row names.
#[repr(C)]
#[derive(Clone, Copy)]
pub struct Boxed {
    pub answer: Answer,
    pub vertices: usize,
    pub facets: usize,
    pub unit: u16,
}

// A refusal comes with zero counts, and names no unit.
impl From<Answer> for Boxed {
    ghost from_gives = { λ answer boxed. boxed ≡ Bo.nothing_boxed answer };

    fn from(answer: Answer) -> Boxed {
        Boxed {
            answer,
            vertices: 0,
            facets: 0,
            unit: 0,
        }
    }
}
