// The calls that answer these requests, one small function each: it makes the call and prints the answer.
// What the two calls answer has fields of other names, so they stay parameters.
use case_fronts::front;
use case_lines::Lines;
use case_requests::common::Held;
use solids::Answer;

// The answer, three numbers and a solid. The third number is the bytes that were used, or the unit.
fn solid(
    out: &mut Lines,
    answer: Answer,
    vertices: usize,
    facets: usize,
    last: usize,
    lists: Held,
) {
    out.begin(answer);
    writeln!(out, " {vertices} {facets} {last}");
    out.vertices(lists.points, vertices);
    out.facets(lists.corners, facets);
    out.stop();
}

pub fn read(out: &mut Lines, bytes: &[u8], points: &mut [f64], corners: &mut [u32]) {
    let r = housefile_reader::read(bytes, points, corners);
    solid(
        out,
        r.answer,
        r.vertices,
        r.facets,
        r.used,
        Held { points, corners },
    );
}

pub fn boxed(out: &mut Lines, row: &[u8], points: &mut [f64], corners: &mut [u32]) {
    let b = outage_boxes::boxed(row, points, corners);
    solid(
        out,
        b.answer,
        b.vertices,
        b.facets,
        usize::from(b.unit),
        Held { points, corners },
    );
}

pub fn write(out: &mut Lines, solid: Held, bytes: &mut [u8]) {
    let w = housefile_writer::write(solid.points, solid.corners, bytes);
    out.begin(w.answer);
    writeln!(out, " {}", w.used);
    // The file, a line of hex digits; none on a refusal.
    if w.answer.number == 0 {
        write!(out, "b ");
        out.pairs(front(bytes, w.used));
        writeln!(out);
    }
    out.stop();
}
