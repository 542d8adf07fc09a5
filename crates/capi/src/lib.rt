// The library's public calls for C, Rust and Python: include/ozoravesh.h declares them. Each promises what the call that it passes on promises.
// C knows each call by its name and passes numbers and lists, so calls that are alike stay apart, and their lists parameters.
#![tactic(auto)]

ghost use Rattle.solids.specs.Solids as So;
ghost use Rattle.solids.specs.Admission as Ad;
ghost use Rattle.solids.specs.Containment as Co;
ghost use Rattle.results.specs.Operation as Op;
ghost use Rattle.results.specs.Origin as Or;
ghost use Rattle.housefile.specs.Reader as Rd;
ghost use Rattle.housefile.specs.Writer as Wr;
ghost use Rattle.solid_line.specs.Answers as An;
ghost use Rattle.origins.specs.Shown as Sh;
ghost use Rattle.outage_rows.specs.Boxed as Bo;

use housefile::{Read, Written};
use outage_rows::Boxed;
use points::Point;
use results::Made;
use solids::{Answer, Counted};

// Union (0), intersection (1) or difference (2) of A and B.
#[unsafe(no_mangle)]
pub extern "C" fn ozoravesh_operate(
    code: u32,
    ap: &[f64],
    ac: &[u32],
    bp: &[f64],
    bc: &[u32],
    points: &mut [f64],
    corners: &mut [u32],
    origins: &mut [u32],
) -> Made
    ensures { Op.Operate code (So.lent ap.entry ac.entry) (So.lent bp.entry bc.entry) (Op.lists points.old corners.old origins.old) (result, Op.lists points.new corners.new origins.new) }
{
    operations::operate(code, ap, ac, bp, bc, points, corners, origins)
}

// The answer of a solid's admission.
#[unsafe(no_mangle)]
pub extern "C" fn ozoravesh_admit(points: &[f64], corners: &[u32]) -> Answer
    ensures { Ad.Admit (So.lent points.entry corners.entry) result }
{
    Answer::from(admission::admit(points, corners))
}

// How often the solid, as A, contains the point x, y, z.
#[unsafe(no_mangle)]
pub extern "C" fn ozoravesh_count_as_a(
    x: f64,
    y: f64,
    z: f64,
    points: &[f64],
    corners: &[u32],
) -> Counted
    ensures { Co.CountAsA (record { x = x; y = y; z = z }) (So.lent points.entry corners.entry) result }
{
    containment::count_as_a(Point { x, y, z }, points, corners)
}

// How often the solid, as B, contains the point x, y, z.
#[unsafe(no_mangle)]
pub extern "C" fn ozoravesh_count_as_b(
    x: f64,
    y: f64,
    z: f64,
    points: &[f64],
    corners: &[u32],
) -> Counted
    ensures { Co.CountAsB (record { x = x; y = y; z = z }) (So.lent points.entry corners.entry) result }
{
    containment::count_as_b(Point { x, y, z }, points, corners)
}

// What an origin shows, in the front of a lent list.
#[unsafe(no_mangle)]
pub extern "C" fn ozoravesh_shown<'a>(
    ac: &'a [u32],
    bc: &'a [u32],
    origin: usize,
    part: &mut [u32],
) -> Written
    ensures { Sh.ShownCopied (Or.standing ac.entry.ref_ptr ac.now) (Or.standing bc.entry.ref_ptr bc.now) origin part.old (result, part.new) }
{
    origins::copied(ac, bc, origin, part)
}

// A house file's solid, in the fronts of two lent lists.
#[unsafe(no_mangle)]
pub extern "C" fn ozoravesh_read(bytes: &[u8], points: &mut [f64], corners: &mut [u32]) -> Read
    ensures { Rd.ReadFile bytes.now points.old corners.old (result, (points.new, corners.new)) }
{
    housefile_reader::read(bytes, points, corners)
}

// A solid's house file, in the front of lent bytes.
#[unsafe(no_mangle)]
pub extern "C" fn ozoravesh_write(points: &[f64], corners: &[u32], bytes: &mut [u8]) -> Written
    ensures { Wr.WriteFile (So.lent points.entry corners.entry) bytes.old (result, bytes.new) }
{
    housefile_writer::write(points, corners, bytes)
}

// The box of an outage row, in the fronts of two lent lists.
#[unsafe(no_mangle)]
pub extern "C" fn ozoravesh_box(row: &[u8], points: &mut [f64], corners: &mut [u32]) -> Boxed
    ensures { Bo.BoxRow row.now points.old corners.old (result, (points.new, corners.new)) }
{
    outage_boxes::boxed(row, points, corners)
}

// The three numbers that the program `solid` prints for this input.
#[unsafe(no_mangle)]
pub extern "C" fn ozoravesh_program(input: &[u8]) -> Made
    ensures { An.Program input.now result }
{
    solid_outcome::outcome(input)
}
