// The writer: a solid's file put into lent bytes.
#![tactic(auto)]

ghost use Rattle.std.specs.Prelude.{◌≡◌, false, [], ◌+◌, ◌*◌, ◌/◌, ◌≤◌, length};
ghost use Rattle.std.proofs.lemmas.List.Edits.{sets};
ghost use Rattle.std.specs.Float.Ieee.{is_nan};
ghost use Rattle.list_words.specs.Lists.{any};
ghost use Rattle.solids.specs.Solids as So;
ghost use Rattle.housefile.specs.Writer as Wr;
ghost use Rattle.housefile_writer.specs.Words as Hw;

use housefile::Written;
use solids::{Answer, Refusal};

fn put_vertices(points: &[f64], bytes: &mut [u8])
    requires { (26 * (length points.now / 3) ≤ length bytes.old) × (any is_nan points.now ≡ false) }
    ensures { bytes.new ≡ sets bytes.old 0 (Hw.vertex_part (So.solid points.now [])) }
{
    for i in 0..points.len() / 3 {
        housefile_records::put_vertex(vertices::vertex(points, i), bytes, 26 * i);
    }
}

fn put_facets(corners: &[u32], bytes: &mut [u8], at: usize)
    requires { at + 14 * (length corners.now / 3) ≤ length bytes.old }
    ensures { bytes.new ≡ sets bytes.old at (Hw.facet_part (So.solid [] corners.now)) }
{
    for f in 0..corners.len() / 3 {
        housefile_records::put_facet(
            corners[3 * f],
            corners[3 * f + 1],
            corners[3 * f + 2],
            bytes,
            at + 14 * f,
        );
    }
}

// The checks 1 to 6, then 8; nothing is written before all have passed.
fn checked(points: &[f64], corners: &[u32], bytes: &mut [u8]) -> Result<Written, Answer>
    ensures { Wr.outcome (Hw.answered result) bytes.new ≡ Wr.write (So.lent points.entry corners.entry) bytes.old }
{
    admission::admit(points, corners)?;
    let facets_at = 26 * (points.len() / 3);
    let end_at = facets_at + 14 * (corners.len() / 3);
    if bytes.len() < end_at + 2 {
        return Err(Refusal::TooShort.on_nobody());
    }
    put_vertices(points, bytes);
    put_facets(corners, bytes, facets_at);
    housefile_records::put_end(bytes, end_at);
    Ok(Written {
        answer: Answer::SUCCESS,
        used: end_at + 2,
    })
}

pub fn write(points: &[f64], corners: &[u32], bytes: &mut [u8]) -> Written
    ensures { Wr.WriteFile (So.lent points.entry corners.entry) bytes.old (result, bytes.new) }
{
    checked(points, corners, bytes).unwrap_or_else(Written::from)
}
