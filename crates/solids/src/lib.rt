// What a call answers, what checks say of a solid or a point, and what a point count answers. The checks and the counts themselves are in the crates
// `admission` and `containment`.
#![tactic(auto)]

ghost use Rattle.std.specs.Prelude.{◌≡◌};
ghost use Rattle.solids.specs.Refusals as Re;
ghost use Rattle.solids.specs.Solids as So;
ghost use Rattle.solids.specs.Admission as Ad;
ghost use Rattle.solids.specs.Containment as Co;
ghost use Rattle.solids.specs.Words as Sw;

// What a call is refused for. Document 01 and its requests know it by a number, and so do callers of the library.
#[derive(Clone, Copy, Debug, PartialEq, Eq)]
pub enum Refusal {
    Uneven,
    TooMany,
    Blank,
    OutOfRange,
    Unmatched,
    UnknownCode,
    TooShort,
    NoLayout,
    TooHigh,
    NamedTwice,
    FlaggedValue,
    NotBelow,
}

// Whom an answer speaks of.
#[derive(Clone, Copy, Debug, PartialEq, Eq)]
pub enum Who {
    Nobody,
    SolidA,
    SolidB,
    OnlySolid,
    ThePoint,
}

// 0, or the number of a refusal; who it speaks of; and the number of the vertex or facet that it is about, or 0. Each struct that a call answers with
// begins with one, so that what a refusal carries has one layout.
#[repr(C)]
#[derive(Clone, Copy)]
pub struct Answer {
    pub number: u32,
    pub who: u32,
    pub place: usize,
}

impl Answer {
    // "Answer 0 is success."
    pub const SUCCESS: Answer = Answer {
        number: 0,
        who: 0,
        place: 0,
    };

    // A refusal with a number on no solid and no point; on the only solid, at a vertex or a facet; on the point.
    pub fn on_nobody(number: u32) -> Answer
        ensures { result ≡ Re.answer_of number }
    {
        Answer {
            number,
            who: Who::Nobody.number(),
            place: 0,
        }
    }

    pub fn on_solid(number: u32, place: usize) -> Answer
        ensures { result ≡ Re.on_solid number place }
    {
        Answer {
            number,
            who: Who::OnlySolid.number(),
            place,
        }
    }

    pub fn on_point(number: u32) -> Answer
        ensures { result ≡ Re.on_point number }
    {
        Answer {
            number,
            who: Who::ThePoint.number(),
            place: 0,
        }
    }

    // What was said of the only solid, told as A's or B's.
    pub fn told_of(self, who: u32) -> Answer
        ensures { result ≡ Re.told who self }
    {
        Answer {
            number: self.number,
            who,
            place: self.place,
        }
    }
}

// A verdict on the only solid, told as A's or B's: of whom a number stands for, or of whom it is.
pub fn told_of_number(who: u32, verdict: Verdict) -> Verdict
    ensures { result ≡ Re.told_of who verdict }
{
    verdict.map_err(|answer| answer.told_of(who))
}

pub fn told_of(who: Who, verdict: Verdict) -> Verdict
    ensures { result ≡ Re.told_of (Sw.who_number who) verdict }
{
    told_of_number(who.number(), verdict)
}

impl Who {
    pub fn number(self) -> u32
        ensures { result ≡ Sw.who_number self }
    {
        match self {
            Who::Nobody => 0,
            Who::SolidA => 1,
            Who::SolidB => 2,
            Who::OnlySolid => 3,
            Who::ThePoint => 4,
        }
    }
}

impl Refusal {
    pub fn number(self) -> u32
        ensures { result ≡ Sw.number self }
    {
        match self {
            Refusal::Uneven => 1,
            Refusal::TooMany => 2,
            Refusal::Blank => 3,
            Refusal::OutOfRange => 4,
            Refusal::Unmatched => 6,
            Refusal::UnknownCode => 7,
            Refusal::TooShort => 8,
            Refusal::NoLayout => 9,
            Refusal::TooHigh => 10,
            Refusal::NamedTwice => 11,
            Refusal::FlaggedValue => 12,
            Refusal::NotBelow => 13,
        }
    }

    pub fn on_nobody(self) -> Answer
        ensures { result ≡ Re.answer_of (Sw.number self) }
    {
        Answer::on_nobody(self.number())
    }

    pub fn on_solid(self, place: usize) -> Answer
        ensures { result ≡ Re.on_solid (Sw.number self) place }
    {
        Answer::on_solid(self.number(), place)
    }

    pub fn on_point(self) -> Answer
        ensures { result ≡ Re.on_point (Sw.number self) }
    {
        Answer::on_point(self.number())
    }
}

// What checks say of a solid or a point: accepted, or refused with the answer that a call then gives.
pub type Verdict = Result<(), Answer>;

// "Answer 0 is success."
impl From<Verdict> for Answer {
    ghost from_gives = { λ verdict answer. answer ≡ Re.answer verdict };

    #[tactic(auto, unfolding(crate::specs::Refusals::answer))]
    fn from(verdict: Verdict) -> Answer {
        match verdict {
            Ok(()) => Answer::SUCCESS,
            Err(answer) => answer,
        }
    }
}

// A solid that admission accepts, in the two lists in which it is lent: coordinates, three a point, and corners, three vertex numbers a facet.
#[derive(Clone, Copy)]
pub struct AdmittedSolid<'a> {
    pub points: &'a [f64],
    pub corners: &'a [u32],
    ghost admitted: { Ad.admission (So.lent points corners) ≡ Re.accepted },
}

// The answer, and how often the solid contains the point.
#[repr(C)]
#[derive(Clone, Copy)]
pub struct Counted {
    pub answer: Answer,
    pub count: i32,
}

impl From<Answer> for Counted {
    ghost from_gives = { λ answer counted. counted ≡ Co.nothing_counted answer };

    fn from(answer: Answer) -> Counted {
        Counted { answer, count: 0 }
    }
}
