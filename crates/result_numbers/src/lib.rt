// The vertices of both solids, A's and then B's: their inclusions and their numbers in the result. With them what else an operation asks before it
// writes: the sign cI, and whether a lent list is too short.
#![tactic(auto)]

ghost use Rattle.std.specs.Prelude.{◌≡◌, true, ◌||◌, ℕ, ◌+◌, ◌*◌, ◌≤◌, ltb, pos, nat_abs, length, get_or, take, drop};
ghost use mathlib.Core.List.{flat_map};
ghost use Rattle.list_words.specs.Lists.{up_to, nonzero};
ghost use Rattle.solids.specs.Solids as So;
ghost use Rattle.solids.specs.Admission as Ad;
ghost use Rattle.solids.specs.Refusals.{accepted};
ghost use Rattle.results.specs.declared.Operation as Op;
ghost use Rattle.results.specs.Inclusion as Inc;
ghost use Rattle.edges.specs.Readers.{solid_of};
ghost use Rattle.layouts.specs.Words as La;
ghost use Rattle.crossing_rows.specs.Words as Cr;
ghost use Rattle.inclusions.specs.Words as In;
ghost use Rattle.result_numbers.specs.Words as Rn;

use edges::ReadySolid;
use layouts::Sizes;
use results::Operation;

// cI: "union -1, intersection 1, difference -1".
pub fn sign(op: Operation) -> i32
    ensures value { result ≡ Inc.cI op }
    ensures small { (nat_abs result ≤ 1) × (nonzero result ≡ true) }
{
    op.numbers().c_i
}

// Inclusions into the front of a list.
pub fn include(op: Operation, z: Sizes, a: ReadySolid, b: ReadySolid, inc: &mut [i16])
    requires admitted { (Ad.admission (solid_of a) ≡ accepted) × (Ad.admission (solid_of b) ≡ accepted) }
    requires z_value { (z ≡ La.sizes (solid_of a) (solid_of b)) × La.Sized z × (z.va + z.vb ≤ length inc.old) × ((i : ℕ) → nat_abs (get_or inc.old i (pos 0)) ≤ 257) }
    ensures included { In.Included op (solid_of a.entry) (solid_of b.entry) inc.new }
    ensures same { length inc.new ≡ length inc.old }
{
    let many = z.va + z.vb;
    inclusions::include(op, a, b, &mut inc[..many]);
}

// The number of the first crossing, and how many vertices there are.
#[derive(Clone, Copy)]
pub struct Numbers {
    pub base: usize,
    pub all: usize,
}

// For `total` crossings. It holds for whatever solids and operation have these inclusions.
pub fn number(z: Sizes, total: usize, inc: &[i16], num: &mut [u32]) -> Numbers
    requires { La.Sized z × (total ≤ 196608) × (z.va + z.vb ≤ length inc.now) × (z.va + z.vb ≤ length num.old) }
    ensures numbered { (op : Op.Operation) (a b : So.Solid) → z ≡ La.sizes a b → In.Included op a b inc.now → total ≡ length (flat_map (Cr.row (Inc.cI op) a b) (up_to (Cr.rows a b))) → Rn.Numbered op a b num.new result.base result.all }
    ensures few { (result.base ≤ 128) × (result.all ≤ 196864) }
    ensures same { length num.new ≡ length num.old }
{
    let va = z.va;
    let base = fans::numbers::number(inc, num, 0, va, 0);
    let all = fans::numbers::number(inc, num, va, z.vb, base + total);
    Numbers { base, all }
}

// 8: "a lent list is too short for the answer", of n vertices and m triangles.
pub fn too_short(points: usize, corners: usize, origins: usize, n: usize, m: usize) -> bool
    requires { (n ≤ 196864) × (m ≤ 1574400) }
    ensures { result ≡ (ltb points (3 * n) || ltb corners (3 * m) || ltb origins m) }
{
    points < 3 * n || corners < 3 * m || origins < m
}
