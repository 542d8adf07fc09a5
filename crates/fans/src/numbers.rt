// A vertex's number in the result is how many kept ones are listed before it.
ghost use Rattle.std.specs.Prelude.{◌≡◌, List, ℕ, ◌+◌, ◌<◌, ◌≤◌, ℤ, length, get_or};
ghost use Rattle.list_words.specs.Lists.{nonzero};
ghost use Rattle.fans.specs.Words.{rank, Follows, Ranked};

fn kept(inclusion: i16) -> bool
    ensures { result ≡ nonzero inclusion }
{
    inclusion != 0
}

// Numbers for the kept ones of `many` vertices, A's or B's, from place `from` of the lists on; the first is `start`. Answers the next. It holds for
// every table that has these inclusions from some slot on.
pub fn number(inc: &[i16], num: &mut [u32], from: usize, many: usize, start: usize) -> usize
    requires { (from + many ≤ length inc.now) × (from + many ≤ length num.old) × (from + many ≤ 65536) × (start ≤ 1048576) }
    ensures ranked { (t : List ℤ) (slot : ℕ) → Follows t inc.now slot from many → start ≡ rank t slot → Ranked t num.new slot from many result }
    ensures before { (i : ℕ) → i < from → get_or num.new i 0 ≡ get_or num.old i 0 }
    ensures few { result ≤ start + many }
    ensures same { length num.new ≡ length num.old }
{
    let mut k = start;
    for i in 0..many {
        num[from + i] = k as u32;
        if kept(inc[from + i]) {
            k += 1;
        }
    }
    k
}
