// The calls that answer these requests, one small function each: it makes the call and prints the answer.
use case_lines::Lines;
use case_requests::common::Held;
use points::Point;
use solids::Answer;

// Which solid a request takes its own as.
#[derive(Clone, Copy)]
pub enum Side {
    A,
    B,
}

pub fn count(out: &mut Lines, side: Side, v: Point, solid: Held) {
    let counted = match side {
        Side::A => containment::count_as_a(v, solid.points, solid.corners),
        Side::B => containment::count_as_b(v, solid.points, solid.corners),
    };
    out.begin(counted.answer);
    writeln!(out, " {}", counted.count);
    out.stop();
}

pub fn admit(out: &mut Lines, solid: Held) {
    out.begin(Answer::from(admission::admit(solid.points, solid.corners)));
    writeln!(out);
    out.stop();
}

pub fn shown<'a>(out: &mut Lines, ac: &'a [u32], bc: &'a [u32], origin: usize) {
    let part = origins::shown(ac, bc, origin);
    write!(out, "{}", part.len());
    out.listed(part);
    writeln!(out);
    out.stop();
}
