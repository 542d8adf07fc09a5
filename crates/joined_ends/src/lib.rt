// The gathered ends of one composite edge, joined into pieces. A piece is two numbers of a list: where it starts and where it ends.
#![tactic(auto)]

ghost use Rattle.std.specs.Prelude.{◌≡◌, ◌+◌, ◌≤◌, length, take};
ghost use Rattle.results.specs.Pieces.{pieces};
ghost use Rattle.joined_ends.specs.Words.{flat, Behind};
ghost use Rattle.joined_ends.specs.Words as Je;

use placed_ends::Counts;
use results::End;

// The ends in a lent list of records, vertex number with signed count: this thin function walks it once and places each as it comes, behind those that
// `c` counts.
fn join(ends: &[End], list: &mut [u32], mut c: Counts) -> Counts
    ensures { (list.new ≡ (Je.all_placed (list.old, c) ends.now).0) × (result ≡ (Je.all_placed (list.old, c) ends.now).1) }
{
    for end in ends {
        c = placed_ends::place_end(list, c, *end);
    }
    c
}

// The first n of the gathered ends are lent to it. No reference to a record is in this contract, so callers need not know of the loan. An array is passed
// by value, so it is short: who has more ends gives them eight at a time, with the counts of those before. It is an array with a length, and no slice,
// since docs/DECISIONS.md has it so: request 2026-04 orders the ends in `join_at` before they are lent.
pub fn join_first(all: [End; 8], n: usize, list: &mut [u32], c: Counts) -> Counts
    requires { n ≤ 8 }
    ensures { (list.new ≡ (Je.all_placed (list.old, c) (take n all)).0) × (result ≡ (Je.all_placed (list.old, c) (take n all)).1) }
{
    join(&all[..n], list, c)
}

// The pieces of the first n ends, which are all that the composite edge has, go behind the first `at` numbers of the list.
pub fn join_at(all: [End; 8], n: usize, list: &mut [u32], at: usize) -> usize
    requires n_bound { n ≤ 8 }
    requires all_in_bounds { at + length (flat (pieces (take n all))) ≤ length list.old }
    ensures { Behind (flat (pieces (take n all))) list.old at list.new result }
{
    let none = Counts {
        starts: 0,
        stops: 0,
    };
    let c = join_first(all, n, &mut list[at..], none);
    placed_ends::next_place(c, at)
}
