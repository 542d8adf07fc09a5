// Union, intersection and difference of two solids: document 01's operation. What is made of two admitted ones is in crates/result_lists.
#![tactic(auto)]

ghost use Rattle.std.specs.Prelude.{◌≡◌};
ghost use Rattle.solids.specs.Solids as So;
ghost use Rattle.results.specs.Operation as Op;
ghost use Rattle.result_lists.specs.Words as Rl;

use crossing_rows::Full;
use results::{Made, Operation};
use solids::{AdmittedSolid, Answer, Refusal, Who};

// As many crossings as two admitted solids can have.
const ROOM: usize = 196608;

// The attempt that is never `Full`. It is lent an array, whose length is known by its type: where the list's zeros are in sight each need is dear.
fn with_room(
    op: Operation,
    a: AdmittedSolid,
    b: AdmittedSolid,
    crossed: &mut [u32; ROOM],
    points: &mut [f64],
    corners: &mut [u32],
    origins: &mut [u32],
) -> Result<Made, Full>
    ensures { Rl.Attempted op (So.lent a.entry.points a.entry.corners) (So.lent b.entry.points b.entry.corners) 196608 (Op.lists points.old corners.old origins.old) result (Op.lists points.new corners.new origins.new) }
{
    result_lists::attempt(op, a, b, crossed, points, corners, origins)
}

// The three lent lists stay parameters down to where they are written, as the call for C has them.
// It has a list for all crossings.
fn in_large(
    op: Operation,
    a: AdmittedSolid,
    b: AdmittedSolid,
    points: &mut [f64],
    corners: &mut [u32],
    origins: &mut [u32],
) -> Made
    ensures { Rl.Operated op (So.lent a.entry.points a.entry.corners) (So.lent b.entry.points b.entry.corners) (Op.lists points.old corners.old origins.old) result (Op.lists points.new corners.new origins.new) }
{
    let mut crossed = [0u32; ROOM];
    match with_room(op, a, b, &mut crossed, points, corners, origins) {
        Ok(made) => made,
        // Never: there is room for all. The call of itself keeps the compiler from putting this function, with its list, into its caller, where the
        // list would be room on the stack of every operation.
        Err(Full) => in_large(op, a, b, points, corners, origins),
    }
}

// A short list for the crossings, and only if that is too short one with room for all: what is not needed is not cleared.
fn admitted(
    op: Operation,
    a: AdmittedSolid,
    b: AdmittedSolid,
    points: &mut [f64],
    corners: &mut [u32],
    origins: &mut [u32],
) -> Made
    ensures { Rl.Operated op (So.lent a.entry.points a.entry.corners) (So.lent b.entry.points b.entry.corners) (Op.lists points.old corners.old origins.old) result (Op.lists points.new corners.new origins.new) }
{
    let mut crossed = [0u32; 2048];
    match result_lists::attempt(op, a, b, &mut crossed, points, corners, origins) {
        Ok(made) => made,
        Err(Full) => in_large(op, a, b, points, corners, origins),
    }
}

// "then A by 1 to 6, then B by 1 to 6, then 8"
fn checked(
    op: Operation,
    ap: &[f64],
    ac: &[u32],
    bp: &[f64],
    bc: &[u32],
    points: &mut [f64],
    corners: &mut [u32],
    origins: &mut [u32],
) -> Result<Made, Answer>
    ensures { Rl.Operated op (So.lent ap.entry ac.entry) (So.lent bp.entry bc.entry) (Op.lists points.old corners.old origins.old) (Rl.told result) (Op.lists points.new corners.new origins.new) }
{
    solids::told_of(Who::SolidA, admission::admit(ap, ac))?;
    solids::told_of(Who::SolidB, admission::admit(bp, bc))?;
    let a = AdmittedSolid {
        points: ap,
        corners: ac,
    };
    let b = AdmittedSolid {
        points: bp,
        corners: bc,
    };
    Ok(admitted(op, a, b, points, corners, origins))
}

// The operation with a code (0 union, 1 intersection, 2 difference) on A's and B's lists, into the three lent lists.
pub fn operate(
    code: u32,
    ap: &[f64],
    ac: &[u32],
    bp: &[f64],
    bc: &[u32],
    points: &mut [f64],
    corners: &mut [u32],
    origins: &mut [u32],
) -> Made
    ensures { Op.Operate code (So.lent ap.entry ac.entry) (So.lent bp.entry bc.entry) (Op.lists points.old corners.old origins.old) (result, Op.lists points.new corners.new origins.new) }
{
    let Some(op) = Operation::of_code(code) else {
        return Made::from(Refusal::UnknownCode.on_nobody());
    };
    // A match: of `unwrap_or_else` the proof has no name for the two cases.
    match checked(op, ap, ac, bp, bc, points, corners, origins) {
        Ok(made) => made,
        Err(answer) => Made::from(answer),
    }
}
