// The list of a solid's half-edges, from the table in which its edges' numbers stand.
#![tactic(auto)]

ghost use Rattle.std.specs.Prelude.{◌≡◌, [], ◌+◌, ◌*◌, ◌/◌, ◌<◌, ◌≤◌, length};
ghost use Rattle.std.proofs.lemmas.List.Edits.{sets};
ghost use Rattle.solids.specs.Solids as So;
ghost use Rattle.solids.specs.Words as Sw;
ghost use Rattle.half_edges.specs.Words as He;

fn twice(n: u16) -> u32
    ensures value { result ≡ 2 * n }
    ensures small { result < 131072 }
{
    2 * (n as u32)
}

// Twice its edge's number, and 1 more if it runs against it; the edge's start; its end.
fn put_half(p: u32, q: u32, numbers: &[u16; 16384], list: &mut [u32], at: usize)
    requires { (p < 128) × (q < 128) × (at + 3 ≤ length list.old) }
    ensures { list.new ≡ sets list.old at (He.three numbers.now (p, q)) }
{
    if p < q {
        let k = tally::place(p, q);
        let e = twice(numbers[k]);
        list_stores::put_three(e, p, q, list, at);
    } else {
        let k = tally::place(q, p);
        let e = twice(numbers[k]);
        list_stores::put_three(e + 1, q, p, list, at);
    }
}

// The three half-edges of facet f.
#[tactic(auto, using(crate::proofs::Fill::put_three))]
fn put_facet(corners: &[u32], f: usize, numbers: &[u16; 16384], list: &mut [u32], at: usize)
    requires { Sw.Low corners.now × (f < length corners.now / 3) × (at + 9 ≤ length list.old) }
    ensures { list.new ≡ sets list.old at (He.threes numbers.now (So.facet_half_edges (So.solid [] corners.now) f)) }
{
    let p = corners[3 * f];
    let q = corners[3 * f + 1];
    let r = corners[3 * f + 2];
    put_half(p, q, numbers, list, at);
    put_half(q, r, numbers, list, at + 3);
    put_half(r, p, numbers, list, at + 6);
}

// All half-edges, behind the first `at` numbers of the list; what stands elsewhere stays.
#[tactic(auto, using(crate::proofs::Fill::put_none, crate::proofs::Fill::put_next, crate::proofs::Fill::all_counted))]
pub fn put_halves(corners: &[u32], numbers: &[u16; 16384], list: &mut [u32], at: usize)
    requires { Sw.Low corners.now × (at + 9 * (length corners.now / 3) ≤ length list.old) }
    ensures { list.new ≡ sets list.old at (He.threes numbers.now (So.half_edges (So.solid [] corners.now))) }
{
    for f in 0..corners.len() / 3 {
        put_facet(corners, f, numbers, list, at + 9 * f);
    }
}
