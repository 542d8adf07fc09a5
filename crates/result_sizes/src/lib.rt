// The lists that the result is made from: what is gathered of both solids, and how many vertices and triangles that gives.
// Lists that are written stay parameters, for the reason that crates/edges gives; `count` says why it takes the others one by one.
#![tactic(auto)]

ghost use Rattle.std.specs.Prelude.{◌≡◌, ℕ, ◌≤◌, pos, nat_abs, length, get_or};
ghost use Rattle.vertex_table.specs.Words as T;
ghost use Rattle.kept_lists.specs.Words as K;
ghost use Rattle.result_sizes.specs.Words as Rs;

use composite_ends::{Crossed, Kept};
use crossing_rows::Full;
use edges::ReadySolid;
use layouts::{Plan, Sizes};
use results::Operation;
use solids::AdmittedSolid;

// Ends of edges, half-edges, crossings and inclusions: the sizes, and how many crossings there are.
pub fn gather(
    op: Operation,
    a: AdmittedSolid,
    b: AdmittedSolid,
    ends: &mut [u32; 1536],
    halves: &mut [u32; 4608],
    first: &mut [u32; 641],
    crossed: &mut [u32],
    inc: &mut [i16; 256],
) -> Result<(Sizes, usize), Full>
    requires { (length crossed.old ≤ 262144) × ((i : ℕ) → nat_abs (get_or inc.old i (pos 0)) ≤ 257) }
    ensures told { Rs.Told op a.entry.points.now a.entry.corners.now b.entry.points.now b.entry.corners.now ends.new halves.new inc.new first.new crossed.new result }
    ensures same { length crossed.new ≡ length crossed.old }
{
    let z = ready_solids::both(a, b, ends, halves);
    let (a_ends, b_ends) = ends.split_at(768);
    let ready_a = ReadySolid {
        points: a.points,
        corners: a.corners,
        ends: a_ends,
    };
    let ready_b = ReadySolid {
        points: b.points,
        corners: b.corners,
        ends: b_ends,
    };
    let sign = result_numbers::sign(op);
    let total = crossings_found::find(sign, z, ready_a, ready_b, first, crossed)?;
    result_numbers::include(op, z, ready_a, ready_b, inc);
    Ok((z, total))
}

// The number of the first crossing, and how many vertices and triangles there are.
#[derive(Clone, Copy)]
pub struct Measured {
    pub base: usize,
    pub vertices: usize,
    pub triangles: usize,
}

// How many triangles there are, from all that is kept.
// A function of its own: a struct of references is built of references at one lifetime, which the lists have as parameters alone.
fn count<'a>(
    plan: Plan,
    inc: &'a [i16],
    num: &'a [u32],
    first: &'a [u32],
    crossed: &'a [u32],
    halves: &'a [u32],
    marks: &'a [u64],
) -> usize
    requires ready { K.Ready halves.now plan.sizes inc.now num.now (K.rows first.now crossed.now plan.base) }
    requires marked { K.Marked halves.now plan.sizes (K.rows first.now crossed.now plan.base) marks.now }
    requires balanced { K.Balanced halves.now plan.sizes inc.now num.now (K.rows first.now crossed.now plan.base) }
    ensures counted { result ≡ length (T.triangles (K.dense plan.sizes inc.now num.now (K.rows first.now crossed.now plan.base)) halves.now plan.sizes) }
    ensures small { result ≤ 1574400 }
{
    let crossings = Crossed {
        plan,
        first,
        crossed,
        halves,
    };
    let kept = Kept {
        crossings,
        inc,
        num,
        marks,
    };
    triangle_count::count_triangles(&kept)
}

// Numbers of the vertices, marks, and the count of the triangles.
pub fn measure(
    z: Sizes,
    total: usize,
    inc: &[i16; 256],
    num: &mut [u32; 256],
    first: &[u32; 641],
    crossed: &[u32],
    halves: &[u32],
    marks: &mut [u64; 5120],
) -> Measured
    requires { Rs.OfSome z total halves.now inc.now first.now crossed.now × (length crossed.now ≤ 262144) }
    ensures { Rs.Measures z total halves.now inc.now num.new first.now crossed.now marks.new result.base result.vertices result.triangles }
{
    let n = result_numbers::number(z, total, inc, num);
    touched_pairs::fill::fill(first, crossed, halves, z, marks);
    let plan = Plan {
        sizes: z,
        base: n.base,
    };
    let triangles = count(plan, inc, num, first, crossed, halves, marks);
    Measured {
        base: n.base,
        vertices: n.all,
        triangles,
    }
}
