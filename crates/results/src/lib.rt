// The operation's type with its three fixed numbers, the record that a composite edge is joined from, and what an operation answers.
#![tactic(auto)]

ghost use Rattle.std.specs.Prelude.{◌≡◌, Some};
ghost use Rattle.results.specs.Inclusion as I;
ghost use Rattle.results.specs.Operation as Op;

use solids::Answer;

#[derive(Clone, Copy)]
pub enum Operation {
    Union,
    Intersection,
    Difference,
}

// A vertex of the result with its signed end count on one composite edge: above 0 so many ends, below 0 so many starts.
#[derive(Clone, Copy)]
pub struct End {
    pub vertex: u32,
    pub count: i32,
}

// The answer of an operation; how many vertices and triangles its result has.
#[repr(C)]
#[derive(Clone, Copy)]
pub struct Made {
    pub answer: Answer,
    pub vertices: usize,
    pub triangles: usize,
}

// "A refusal gives zero counts"
impl From<Answer> for Made {
    ghost from_gives = { λ answer made. made ≡ Op.nothing_made answer };

    fn from(answer: Answer) -> Made {
        Made {
            answer,
            vertices: 0,
            triangles: 0,
        }
    }
}

// The three fixed numbers of an operation.
#[derive(Clone, Copy)]
pub struct Numbers {
    pub c_a: i32,
    pub c_b: i32,
    pub c_i: i32,
}

// "Each operation has three fixed numbers, cA, cB, cI: union 1, 1, -1; intersection 0, 0, 1; difference 1, 0, -1."
impl Operation {
    pub const UNION: Numbers = Numbers {
        c_a: 1,
        c_b: 1,
        c_i: -1,
    };

    pub const INTERSECTION: Numbers = Numbers {
        c_a: 0,
        c_b: 0,
        c_i: 1,
    };

    pub const DIFFERENCE: Numbers = Numbers {
        c_a: 1,
        c_b: 0,
        c_i: -1,
    };

    pub fn numbers(self) -> Numbers
        ensures { result ≡ I.numbers self }
    {
        match self {
            Operation::Union => Self::UNION,
            Operation::Intersection => Self::INTERSECTION,
            Operation::Difference => Self::DIFFERENCE,
        }
    }

    // The code that stands for it.
    pub fn code(self) -> u32
        ensures { I.chosen result ≡ Some self }
    {
        match self {
            Operation::Union => 0,
            Operation::Intersection => 1,
            Operation::Difference => 2,
        }
    }

    // What an operation code stands for.
    // A function of the operation's type, one of the forms by place (docs/DECISIONS.md), and so no TryFrom.
    pub fn of_code(code: u32) -> Option<Operation>
        ensures { result ≡ I.chosen code }
    {
        match code {
            0 => Some(Operation::Union),
            1 => Some(Operation::Intersection),
            2 => Some(Operation::Difference),
            _ => None,
        }
    }
}
