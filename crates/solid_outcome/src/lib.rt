// What the program `solid` prints, as a function of its input: what the operation makes of the two solids that the input holds, or a refusal, and the
// line that says so.
#![tactic(auto)]

ghost use Rattle.std.specs.Prelude.{◌≡◌};
ghost use Rattle.solids.specs.Solids as So;
ghost use Rattle.results.specs.Operation as Op;
ghost use Rattle.solid_line.specs.Line as Li;
ghost use Rattle.solid_line.specs.Answers as An;

use results::{Made, Operation};
use solid_line::Text;

// The operation with the program's room.
fn operated(operation: Operation, ap: &[f64], ac: &[u32], bp: &[f64], bc: &[u32]) -> Made
    ensures { result ≡ An.made (Op.operate operation (So.lent ap.entry ac.entry) (So.lent bp.entry bc.entry) Li.room) }
{
    let mut points = [0.0f64; 1536];
    let mut corners = [0u32; 3072];
    let mut origins = [0u32; 1024];
    operations::operate(
        operation.code(),
        ap,
        ac,
        bp,
        bc,
        &mut points,
        &mut corners,
        &mut origins,
    )
}

// The three numbers that the program prints.
pub fn outcome(input: &[u8]) -> Made
    ensures { An.Program input.now result }
{
    let mut ap = [0.0f64; 384];
    let mut ac = [0u32; 768];
    let mut bp = [0.0f64; 384];
    let mut bc = [0u32; 768];
    match solid_input::take_in(input, &mut ap, &mut ac, &mut bp, &mut bc) {
        Err(answer) => Made::from(answer),
        Ok(taken) => {
            let i = 3 * taken.first.vertices;
            let j = 3 * taken.first.facets;
            let n = 3 * taken.second.vertices;
            let m = 3 * taken.second.facets;
            operated(taken.operation, &ap[..i], &ac[..j], &bp[..n], &bc[..m])
        }
    }
}

// The line that the program prints.
pub fn printed(input: &[u8]) -> Text
    ensures { An.Printed input.now result }
{
    solid_printing::line_of(outcome(input))
}
