// Two solids made ready for the operation: their edges, their half-edges and their sizes.
#![tactic(auto)]

ghost use Rattle.std.specs.Prelude.{◌≡◌, ◌+◌, ◌*◌, ◌≤◌, length, take, drop};
ghost use Rattle.std.proofs.lemmas.List.Edits.{sets};
ghost use Rattle.layouts.specs.Words as La;
ghost use Rattle.solids.specs.Solids as So;
ghost use Rattle.edges.specs.Words as Ed;
ghost use Rattle.ready_solids.specs.Words.{solid_of};

use edges::Tally;
use layouts::Sizes;
use solids::AdmittedSolid;

// One solid made ready: its edges listed, and its half-edges put behind the first `at` numbers of the list of both. Answers how many edges it has.
fn ready(s: AdmittedSolid, ends: &mut [u32], halves: &mut [u32], at: usize) -> usize
    requires ends_len { length ends.old ≡ 768 }
    requires corners_in_bounds { at + 9 * So.facets (solid_of s) ≤ length halves.old }
    ensures ready { Ed.Ready s.entry.points.now s.entry.corners.now ends.new }
    ensures halves { halves.new ≡ sets halves.old at (La.half_list (solid_of s.entry)) }
    ensures count { result ≡ length (So.edges (solid_of s.entry)) }
{
    let mut counts = [0u16; 16384];
    let mut numbers = [0u16; 16384];
    tally::tally(&mut counts, s.corners);
    let tally = Tally {
        table: &counts,
        corners: s.corners,
    };
    let many = edges::list_edges(tally, (s.points.len() / 3) as u32, ends, &mut numbers);
    half_edges::put_halves(s.corners, &numbers, halves, at);
    many
}

// How many vertices, edges and facets two solids have, their edges being counted already.
fn sizes(a: AdmittedSolid, ea: usize, b: AdmittedSolid, eb: usize) -> Sizes
    requires ea_value { ea ≡ length (So.edges (solid_of a)) }
    requires eb_value { eb ≡ length (So.edges (solid_of b)) }
    ensures { result ≡ La.sizes (solid_of a.entry) (solid_of b.entry) }
{
    Sizes {
        va: a.points.len() / 3,
        ea,
        fa: a.corners.len() / 3,
        vb: b.points.len() / 3,
        eb,
        fb: b.corners.len() / 3,
    }
}

// Both solids made ready: the front of `halves` is the list of both, and in `ends` those of B's edges stand from 768 on.
pub fn both(a: AdmittedSolid, b: AdmittedSolid, ends: &mut [u32], halves: &mut [u32]) -> Sizes
    requires ends_len { (length ends.old ≡ 1536) × (4608 ≤ length halves.old) }
    ensures ready_a { Ed.Ready a.entry.points.now a.entry.corners.now (take 768 ends.new) }
    ensures ready_b { Ed.Ready b.entry.points.now b.entry.corners.now (drop 768 ends.new) }
    ensures sizes { result ≡ La.sizes (solid_of a.entry) (solid_of b.entry) }
    ensures front { take (9 * (result.fa + result.fb)) halves.new ≡ La.halves (solid_of a.entry) (solid_of b.entry) }
{
    let ea = ready(a, &mut ends[..768], halves, 0);
    let eb = ready(b, &mut ends[768..], halves, 9 * (a.corners.len() / 3));
    sizes(a, ea, b, eb)
}
