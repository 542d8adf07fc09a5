// The pieces of an edge that nothing crosses: its start and its end are all its ends, and nearly always they make one piece or none. No array is wanted.
ghost use Rattle.std.specs.Prelude.{[], ◌∷◌, ◌+◌, ◌≤◌, length};
ghost use Rattle.results.specs.Pieces.{pieces};
ghost use Rattle.joined_ends.specs.Words.{flat, Behind};

use composite_ends::BLANK;
use results::End;

fn put_piece(from: u32, to: u32, list: &mut [u32], at: usize) -> usize
    requires { at + 2 ≤ length list.old }
    ensures { Behind (from ∷ to ∷ []) list.old at list.new result }
{
    list[at] = from;
    list[at + 1] = to;
    at + 2
}

// The pieces of two ends.
pub fn two_ends(a: End, b: End, list: &mut [u32], at: usize) -> usize
    requires { at + length (flat (pieces (a ∷ b ∷ []))) ≤ length list.old }
    ensures { Behind (flat (pieces (a ∷ b ∷ []))) list.old at list.new result }
{
    match (a.count, b.count) {
        (0, _) => at,
        (-1, 1) => put_piece(a.vertex, b.vertex, list, at),
        (1, -1) => put_piece(b.vertex, a.vertex, list, at),
        _ => {
            let mut all = [BLANK; 8];
            all[0] = a;
            all[1] = b;
            joined_ends::join_at(all, 2, list, at)
        }
    }
}
