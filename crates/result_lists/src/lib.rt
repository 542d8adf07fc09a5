// The result of an operation on two admitted solids: its crossings are found, everything is counted, then 8 is checked, then the lent lists are
// written.
// Lists that are written stay parameters, for the reason that crates/edges gives; `lay_triangles` says why it takes the others one by one.
#![tactic(auto)]

ghost use Rattle.std.specs.Prelude.{◌≡◌, ◌+◌, ◌≤◌, length};
ghost use Rattle.list_words.specs.Lists.{onto};
ghost use Rattle.solids.specs.Solids as So;
ghost use Rattle.results.specs.Operation as Op;
ghost use Rattle.layouts.specs.Words as La;
ghost use Rattle.fans.specs.Words.{Laid};
ghost use Rattle.vertex_table.specs.Words as T;
ghost use Rattle.kept_lists.specs.Words as K;
ghost use Rattle.result_points.specs.Words as Rp;
ghost use Rattle.result_sizes.specs.Words as Rs;
ghost use Rattle.result_lists.specs.Words as Rl;

use composite_ends::{Crossed, Kept};
use crossing_rows::Full;
use edges::ReadySolid;
use layouts::{Plan, Sizes};
use results::{Made, Operation};
use solids::{AdmittedSolid, Answer, Refusal};

// The points of the result. `ends` has the ends of A's edges from 0 on and those of B's from 768 on.
fn lay_points(
    z: Sizes,
    a: AdmittedSolid,
    b: AdmittedSolid,
    ends: &[u32],
    inc: &[i16],
    first: &[u32],
    crossed: &[u32],
    points: &mut [f64],
)
    requires ready { Rs.Ends a.points.now a.corners.now b.points.now b.corners.now ends.now }
    requires z_value { (z ≡ La.sizes (So.lent a.points a.corners) (So.lent b.points b.corners)) × La.Columns z first.now crossed.now × (z.va + z.vb ≤ length inc.now) }
    requires crossed_in_bounds { length (Rp.placed (So.lent a.points a.corners) (So.lent b.points b.corners) inc.now first.now crossed.now) ≤ length points.old }
    ensures { points.new ≡ onto (Rp.placed (So.lent a.entry.points a.entry.corners) (So.lent b.entry.points b.entry.corners) inc.now first.now crossed.now) points.old }
{
    let (a_ends, b_ends) = ends.split_at(768);
    let ready_a = ReadySolid {
        points: a.points,
        corners: a.corners,
        ends: a_ends,
    };
    let ready_b = ReadySolid {
        points: b.points,
        corners: b.corners,
        ends: b_ends,
    };
    result_points::put_points(z, ready_a, ready_b, inc, first, crossed, points);
}

// Its triangles with their origins, and how many they are. `list` is for one boundary.
// A function of its own, as `count` of crates/result_sizes: a struct of references is built of references at one lifetime.
fn lay_triangles<'a>(
    plan: Plan,
    inc: &'a [i16],
    num: &'a [u32],
    first: &'a [u32],
    crossed: &'a [u32],
    halves: &'a [u32],
    marks: &'a [u64],
    list: &mut [u32],
    corners: &mut [u32],
    origins: &mut [u32],
) -> usize
    requires ready { K.Ready halves.now plan.sizes inc.now num.now (K.rows first.now crossed.now plan.base) }
    requires marked { K.Marked halves.now plan.sizes (K.rows first.now crossed.now plan.base) marks.now }
    requires room { 6150 ≤ length list.old }
    ensures { Laid (T.triangles (K.dense plan.sizes inc.now num.now (K.rows first.now crossed.now plan.base)) halves.now plan.sizes) corners.old origins.old 0 corners.new origins.new result }
{
    let crossings = Crossed {
        plan,
        first,
        crossed,
        halves,
    };
    let kept = Kept {
        crossings,
        inc,
        num,
        marks,
    };
    result_triangles::put_triangles(&kept, list, corners, origins)
}

// The operation on admitted solids, with a list for their crossings.
pub fn attempt(
    op: Operation,
    a: AdmittedSolid,
    b: AdmittedSolid,
    crossed: &mut [u32],
    points: &mut [f64],
    corners: &mut [u32],
    origins: &mut [u32],
) -> Result<Made, Full>
    requires { length crossed.old ≤ 262144 }
    ensures { Rl.Attempted op (So.lent a.entry.points a.entry.corners) (So.lent b.entry.points b.entry.corners) (length crossed.old) (Op.lists points.old corners.old origins.old) result (Op.lists points.new corners.new origins.new) }
{
    let mut ends = [0u32; 1536];
    let mut all_halves = [0u32; 4608];
    let mut first = [0u32; 641];
    let mut inc = [0i16; 256];
    let (z, many) = result_sizes::gather(
        op,
        a,
        b,
        &mut ends,
        &mut all_halves,
        &mut first,
        crossed,
        &mut inc,
    )?;
    let nine = 9 * (z.fa + z.fb);
    let halves = &all_halves[..nine];
    let mut num = [0u32; 256];
    let mut marks = [0u64; 5120];
    let n = result_sizes::measure(z, many, &inc, &mut num, &first, crossed, halves, &mut marks);
    let m = n.triangles;
    let plan = Plan {
        sizes: z,
        base: n.base,
    };
    if result_numbers::too_short(points.len(), corners.len(), origins.len(), n.vertices, m) {
        return Ok(Made::from(Refusal::TooShort.on_nobody()));
    }
    lay_points(z, a, b, &ends, &inc, &first, crossed, points);
    let mut list = [0u32; 6150];
    lay_triangles(
        plan, &inc, &num, &first, crossed, halves, &marks, &mut list, corners, origins,
    );
    Ok(Made {
        answer: Answer::SUCCESS,
        vertices: n.vertices,
        triangles: m,
    })
}
