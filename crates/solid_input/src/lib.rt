// The two solids that an input of the program `solid` holds, in lists that the caller lends, or the refusal that comes before the operation.
// The four lists are the caller's, and are written before they are read: they stay parameters.
#![tactic(auto)]

ghost use Rattle.std.specs.Prelude.{◌≡◌, length};
ghost use Rattle.solid_line.specs.Line as Li;
ghost use Rattle.solid_input.specs.Words as Si;

use housefile_reader::Walk;
use results::Operation;
use solids::{Answer, Refusal, Verdict, Who};

// The operation, and the walks over A's and B's files, whose solids are in the fronts of the lists.
#[derive(Clone, Copy)]
pub struct Taken {
    pub operation: Operation,
    pub first: Walk,
    pub second: Walk,
}

// The verdict on a file's solid. Too many vertices or facets are counted and not all kept: 2 is known by their numbers, and no earlier check refuses
// what a file holds, lists of whole threes.
fn admitted(w: Walk, points: &[f64], corners: &[u32]) -> Verdict
    requires { (length points.now ≡ 384) × (length corners.now ≡ 768) }
    ensures { result ≡ Si.kept_admission w points.now corners.now }
{
    w.check_sizes()?;
    let n = 3 * w.vertices;
    let m = 3 * w.facets;
    admission::admit(&points[..n], &corners[..m])
}

// "then come A's other refusals, B's".
fn of_walks(
    operation: Operation,
    first: Walk,
    ap: &[f64; 384],
    ac: &[u32; 768],
    second: Walk,
    bp: &[f64; 384],
    bc: &[u32; 768],
) -> Result<Taken, Answer>
    ensures { result ≡ Si.of_walks operation first ap.now ac.now second bp.now bc.now }
{
    solids::told_of(Who::SolidA, admitted(first, ap, ac))?;
    solids::told_of(Who::SolidB, admitted(second, bp, bc))?;
    Ok(Taken {
        operation,
        first,
        second,
    })
}

// "a layout fault in either file or trailing bytes give 9"
fn of_bytes(
    operation: Operation,
    bytes: &[u8],
    ap: &mut [f64; 384],
    ac: &mut [u32; 768],
    bp: &mut [f64; 384],
    bc: &mut [u32; 768],
) -> Result<Taken, Answer>
    requires { Si.Rooms ap.old ac.old bp.old bc.old }
    ensures { Si.Tells (Si.of_bytes operation bytes.now) result ap.new ac.new bp.new bc.new }
{
    let Some(first) = housefile_reader::scan(bytes, ap, ac) else {
        return Err(Refusal::NoLayout.on_nobody());
    };
    let used = first.used;
    let Some(second) = housefile_reader::scan(&bytes[used..], bp, bc) else {
        return Err(Refusal::NoLayout.on_nobody());
    };
    if used + second.used < bytes.len() {
        return Err(Refusal::NoLayout.on_nobody());
    }
    of_walks(operation, first, ap, ac, second, bp, bc)
}

// The operation that a letter names.
fn operation_of(letter: u8) -> Option<Operation>
    ensures { result ≡ Li.letter letter }
{
    match letter {
        b'U' => Some(Operation::Union),
        b'I' => Some(Operation::Intersection),
        b'D' => Some(Operation::Difference),
        _ => None,
    }
}

// What an input holds: A's solid in the first two lists, B's in the other two, or a refusal. "an unknown letter gives 7 before the files are looked
// at; then input over 32,768 bytes"
pub fn take_in(
    input: &[u8],
    ap: &mut [f64; 384],
    ac: &mut [u32; 768],
    bp: &mut [f64; 384],
    bc: &mut [u32; 768],
) -> Result<Taken, Answer>
    requires { Si.Rooms ap.old ac.old bp.old bc.old }
    ensures { Si.Tells (Li.program input.now) result ap.new ac.new bp.new bc.new }
{
    let Some((letter, files)) = input.split_first() else {
        return Err(Refusal::NoLayout.on_nobody());
    };
    let Some(operation) = operation_of(*letter) else {
        return Err(Refusal::UnknownCode.on_nobody());
    };
    if files.len() > 32767 {
        return Err(Refusal::NoLayout.on_nobody());
    }
    of_bytes(operation, files, ap, ac, bp, bc)
}
