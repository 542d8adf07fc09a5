// Triangles counted without joining: what the ends of a boundary tell as they come. How many triangles there are does not depend on who is joined to whom.
#![tactic(auto)]

ghost use Rattle.std.specs.Prelude.{◌≡◌, ◌≤◌, nat_abs};
ghost use Rattle.fan_counts.specs.Words.{told};

use results::End;

// How many pieces there are, the least vertex so far, and how many ends are there (0: none counts yet). `at` is a number that triangles are counted with,
// so an Option for the vertex with its ends would be no plainer: who counts would have to open it for the 0.
#[derive(Clone, Copy)]
pub struct Tally {
    pub pieces: usize,
    pub least: u32,
    pub at: usize,
}

// One end more.
pub fn tell(t: Tally, e: End) -> Tally
    requires { (t.pieces ≤ 1073741824) × (t.at ≤ 1073741824) × (nat_abs e.count ≤ 257) }
    ensures { result ≡ told t e }
{
    let size = e.count.unsigned_abs() as usize;
    if size == 0 {
        return t;
    }
    let pieces = t.pieces + placed_ends::starts_of(e.count) as usize;
    if t.at == 0 || e.vertex < t.least {
        return Tally {
            pieces,
            least: e.vertex,
            at: size,
        };
    }
    let more = if e.vertex == t.least { size } else { 0 };
    Tally {
        pieces,
        least: t.least,
        at: t.at + more,
    }
}
