// What an origin shows: the facet's part of A's or of B's own corner list.
#![tactic(auto)]

ghost use Rattle.results.specs.Origin as Or;
ghost use Rattle.origins.specs.Shown as Sh;

use housefile::Written;
use solids::{Answer, Refusal};

// "an origin beyond both (facet counts rounded down) shows the empty front of A's"
#[tactic(auto, unfolding(results::specs::Origin::shown))]
pub fn shown<'a>(a: &'a [u32], b: &'a [u32], origin: usize) -> &'a [u32]
    ensures { Or.Shown (Or.standing a.entry.ref_ptr a.now) (Or.standing b.entry.ref_ptr b.now) origin (Or.standing result.ref_ptr result.now) }
{
    let of_a = a.len() / 3;
    let of_b = b.len() / 3;
    if origin < of_a {
        let start = 3 * origin;
        return &a[start..start + 3];
    }
    let rest = origin - of_a;
    if rest < of_b {
        let start = 3 * rest;
        return &b[start..start + 3];
    }
    &a[..0]
}

// The same, copied into the front of a lent list: for callers to whom no reference can be handed back.
#[tactic(auto, unfolding(crate::specs::Shown::show))]
pub fn copied<'a>(ac: &'a [u32], bc: &'a [u32], origin: usize, part: &mut [u32]) -> Written
    ensures { Sh.ShownCopied (Or.standing ac.entry.ref_ptr ac.now) (Or.standing bc.entry.ref_ptr bc.now) origin part.old (result, part.new) }
{
    let found = shown(ac, bc, origin);
    if part.len() < found.len() {
        return Written::from(Refusal::TooShort.on_nobody());
    }
    list_stores::copy_front(found, part);
    Written {
        answer: Answer::SUCCESS,
        used: found.len(),
    }
}
