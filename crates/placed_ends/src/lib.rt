// How the starts and stops of the ends of one composite edge are placed on the two sides of pieces. A piece is two numbers of a list: where it starts
// and where it ends.
#![tactic(auto)]

ghost use Rattle.std.specs.Prelude.{◌≡◌, ◌+◌, ◌*◌, ◌<◌, ◌≤◌, min};
ghost use Rattle.list_words.specs.Lists.{above, below};
ghost use Rattle.placed_ends.specs.Words as Pe;

use results::End;

// How many starts and how many stops are placed.
#[derive(Clone, Copy)]
pub struct Counts {
    pub starts: usize,
    pub stops: usize,
}

// Which of a piece's two numbers: where it starts or where it ends.
#[derive(Clone, Copy)]
enum Side {
    Start,
    Stop,
}

impl Side {
    fn place(self) -> usize
        ensures { result ≡ Pe.place_of self }
    {
        match self {
            Side::Start => 0,
            Side::Stop => 1,
        }
    }
}

// Puts `v` on one side of the k-th piece, where there is room.
fn put_once(list: &mut [u32], side: Side, k: usize, v: u32) -> usize
    ensures list { list.new ≡ (Pe.put_once (Pe.place_of side) v (list.old, k)).0 }
    ensures next { result ≡ (Pe.put_once (Pe.place_of side) v (list.old, k)).1 }
{
    if k < list.len() / 2 {
        let at = 2 * k + side.place();
        list[at] = v;
        return k + 1;
    }
    k
}

// Puts `v` n times, from the k-th piece on.
#[tactic(auto, using(crate::proofs::Placing::times_step))]
fn put_times(list: &mut [u32], side: Side, k: usize, n: u32, v: u32) -> usize
    ensures list { list.new ≡ (Pe.put_times (Pe.place_of side) v n (list.old, k)).0 }
    ensures next { result ≡ (Pe.put_times (Pe.place_of side) v n (list.old, k)).1 }
{
    let mut at = k;
    for _ in 0..n {
        at = put_once(list, side, at, v);
    }
    at
}

// "below 0 it is that many starts"
pub fn starts_of(count: i32) -> u32
    ensures { result ≡ below count }
{
    if count < 0 { count.unsigned_abs() } else { 0 }
}

// "a count n above 0 is n ends"
pub fn stops_of(count: i32) -> u32
    ensures { result ≡ above count }
{
    if count > 0 { count.unsigned_abs() } else { 0 }
}

// The starts of an end go to one side of the pieces, its stops to the other.
pub fn place_end(list: &mut [u32], c: Counts, e: End) -> Counts
    ensures { (list.new ≡ (Pe.placed (list.old, c) e).0) × (result ≡ (Pe.placed (list.old, c) e).1) }
{
    let starts = put_times(list, Side::Start, c.starts, starts_of(e.count), e.vertex);
    let stops = put_times(list, Side::Stop, c.stops, stops_of(e.count), e.vertex);
    Counts { starts, stops }
}

// Behind the pieces, of which there are as many as the side has that has fewer.
pub fn next_place(c: Counts, at: usize) -> usize
    requires { at + 2 * min c.starts c.stops ≤ 4611686018427387904 }
    ensures { result ≡ at + 2 * min c.starts c.stops }
{
    at + 2 * c.starts.min(c.stops)
}
