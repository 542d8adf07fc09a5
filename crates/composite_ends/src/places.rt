// What the list of half-edges says: three numbers a half-edge, A's facets' first, then B's. They are twice its edge's number, and 1 more if it runs
// against its edge; the edge's start; its end.
ghost use Rattle.std.specs.Prelude.{◌≡◌, ◌*◌, ◌<◌, length, get_or};
ghost use Rattle.layouts.specs.Words as La;

pub fn number_at(halves: &[u32], i: usize) -> usize
    requires { i < length halves.now }
    ensures { result ≡ get_or halves.now i 0 }
{
    halves[i] as usize
}

// The number of half-edge h's edge.
pub fn edge_of(halves: &[u32], h: usize) -> usize
    requires { 3 * h < length halves.now }
    ensures { result ≡ La.edge_at halves.now h }
{
    number_at(halves, 3 * h) / 2
}

pub fn against(halves: &[u32], h: usize) -> bool
    requires { 3 * h < length halves.now }
    ensures { result ≡ La.against halves.now h }
{
    halves[3 * h] % 2 == 1
}
