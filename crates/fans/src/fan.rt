// The triangles over one boundary: "let a be the smallest result number on that boundary; each boundary half-edge p→q, in order, without a at
// either end gives the triangle a,p,q". They are stored as far as there is room, and counted all the same.
// Lists that are written stay parameters, for the reason that crates/edges gives.
ghost use Rattle.std.specs.Prelude.{◌≡◌, [], ◌∷◌, ◌+◌, ◌*◌, ◌<◌, ◌≤◌, length, get_or, MatchOption};
ghost use Rattle.list_words.specs.Lists.{least};
ghost use Rattle.results.specs.Triangles.{fan};
ghost use Rattle.joined_ends.specs.Words.{firsts};
ghost use Rattle.fans.specs.Words.{fan_at, Laid};

fn put_triangle(
    a: u32,
    p: u32,
    q: u32,
    origin: u32,
    corners: &mut [u32],
    origins: &mut [u32],
    k: usize,
) -> usize
    requires { k < 4294967296 }
    ensures laid { Laid (fan_at origin a ((p, q) ∷ [])) corners.old origins.old k corners.new origins.new result }
    ensures small { result ≤ k + 1 }
{
    if a == p || a == q {
        return k;
    }
    list_stores::put_three(a, p, q, corners, 3 * k);
    list_stores::store(origins, k, origin);
    k + 1
}

// The smallest of the numbers, if there are any.
fn smallest(list: &[u32]) -> Option<u32>
    ensures { MatchOption result (length list.now ≡ 0) (λ a. a ≡ least (get_or list.now 0 0) list.now) }
{
    list.iter().copied().min()
}

// The fan over the first n pieces of the list, which are 2 * n numbers: of a slice it would have to be known that its length is even.
pub fn put_fan(
    list: &[u32],
    n: usize,
    origin: u32,
    corners: &mut [u32],
    origins: &mut [u32],
    at: usize,
) -> usize
    requires { (2 * n ≤ length list.now) × (at + n ≤ 4294967296) }
    ensures laid { Laid (fan origin (firsts list.now n)) corners.old origins.old at corners.new origins.new result }
    ensures small { result ≤ at + n }
{
    let Some(a) = smallest(&list[..2 * n]) else {
        return at;
    };
    let mut k = at;
    for i in 0..n {
        k = put_triangle(a, list[2 * i], list[2 * i + 1], origin, corners, origins, k);
    }
    k
}
