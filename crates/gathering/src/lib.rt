// How a crossing is gathered from its lower pairings: their sum, the first plus and the first minus.
#![tactic(auto)]

ghost use Rattle.std.specs.Prelude.{◌≡◌, true, false, cond, ◌+◌, ◌<◌, ◌≤◌, ◌^◌, pos, nat_abs, ◌+ℤ◌, length};
ghost use Rattle.list_words.specs.Lists.{nonzero};
ghost use Rattle.points.specs.Points as P;
ghost use Rattle.crossings.specs.Crossings as C;
ghost use Rattle.gathering.specs.Words.{Small};

use crossings::Crossing;
use points::Axis;

// What a pairing takes from its lower pairings: the sum of their S, the first plus and the first minus (Miss where there is none), all by one axis.
// They are gathered from the last to the first: each takes the place of what was found behind it, and nothing asks whether something was.
#[derive(Clone, Copy)]
pub struct Gather {
    pub by: Axis,
    pub sum: i32,
    pub plus: Crossing,
    pub minus: Crossing,
}

impl Gather {
    pub fn empty(by: Axis) -> Gather
        ensures value { result ≡ record { by = by; sum = pos 0; plus = Crossing.Miss; minus = Crossing.Miss } }
        ensures small { nat_abs result.sum ≤ 0 }
    {
        Gather {
            by,
            sum: 0,
            plus: Crossing::Miss,
            minus: Crossing::Miss,
        }
    }

    #[tactic(auto, unfolding(crossings::specs::Crossings::S, crossings::specs::Crossings::lies))]
    pub fn with(self, c: Crossing) -> Gather
        requires { nat_abs (C.count c) + nat_abs self.sum < 2 ^ 31 }
        ensures value { result ≡ record {
          by = self.by;
          sum = C.S self.by c +ℤ self.sum;
          plus = cond (C.lies self.by true c) c self.plus;
          minus = cond (C.lies self.by false c) c self.minus;
        } }
        ensures small { nat_abs result.sum ≤ nat_abs (C.count c) + nat_abs self.sum }
    {
        match c {
            Crossing::Miss => self,
            Crossing::Cross(n, w) => {
                let by = self.by;
                let plus = self.plus;
                let minus = self.minus;
                if points::at_least(by, w) {
                    Gather {
                        by,
                        sum: n + self.sum,
                        plus: c,
                        minus,
                    }
                } else {
                    Gather {
                        by,
                        sum: self.sum,
                        plus,
                        minus: c,
                    }
                }
            }
        }
    }

    // Points are worked out only where the sum is not 0.
    pub fn finish(self) -> Crossing
        ensures { result ≡
            cond (nonzero self.sum)
            (Crossing.Cross self.sum (P.placed self.by (C.points self.plus) (C.points self.minus)))
            Crossing.Miss }
    {
        let n = self.sum;
        if n == 0 {
            return Crossing::Miss;
        }
        let by = self.by;
        let plus = self.plus;
        let minus = self.minus;
        Crossing::Cross(n, points::placed(by, plus.points(), minus.points()))
    }
}

// The pairing whose lower pairings these are, each with its sign.
pub fn paired(by: Axis, lower: &[Crossing]) -> Crossing
    requires { Small lower.now × (length lower.now ≤ 8) }
    ensures { result ≡ C.paired by lower.now }
{
    let mut gather = Gather::empty(by);
    for c in lower.iter().rev() {
        gather = gather.with(*c);
    }
    gather.finish()
}
