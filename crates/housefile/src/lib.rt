// House files: a solid as bytes. Numbers stand low byte first.
#![tactic(auto)]

ghost use Rattle.std.specs.Prelude.{◌≡◌};
ghost use Rattle.housefile.specs.Reader as Re;
ghost use Rattle.housefile.specs.Writer as Wr;

use points::Point;
use solids::Answer;

// A record of a house file: a vertex, a facet's three vertex numbers, or the end.
#[derive(Clone, Copy)]
pub enum Record {
    Vx(Point),
    Fc(u32, u32, u32),
    En,
}

// The answer of a reading; how many vertices and facets were read, and how many bytes that took.
#[repr(C)]
#[derive(Clone, Copy)]
pub struct Read {
    pub answer: Answer,
    pub vertices: usize,
    pub facets: usize,
    pub used: usize,
}

// A refusal comes with zero counts.
impl From<Answer> for Read {
    ghost from_gives = { λ answer read. read ≡ Re.nothing_read answer };

    fn from(answer: Answer) -> Read {
        Read {
            answer,
            vertices: 0,
            facets: 0,
            used: 0,
        }
    }
}

// The answer of a writing, and how many bytes were written.
#[repr(C)]
#[derive(Clone, Copy)]
pub struct Written {
    pub answer: Answer,
    pub used: usize,
}

// A refusal comes with no byte written.
impl From<Answer> for Written {
    ghost from_gives = { λ answer written. written ≡ Wr.nothing_written answer };

    fn from(answer: Answer) -> Written {
        Written { answer, used: 0 }
    }
}
