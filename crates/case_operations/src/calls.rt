// Makes the call that answers this request, and prints the answer. Its parameters are the call's.
use case_lines::Lines;
use case_requests::common::Held;

pub fn op(
    out: &mut Lines,
    code: u32,
    a: Held,
    b: Held,
    coordinates: &mut [f64],
    corners: &mut [u32],
    origins: &mut [u32],
) {
    let made = operations::operate(
        code,
        a.points,
        a.corners,
        b.points,
        b.corners,
        coordinates,
        corners,
        origins,
    );
    out.begin(made.answer);
    writeln!(out, " {} {}", made.vertices, made.triangles);
    out.vertices(coordinates, made.vertices);
    out.triangles(corners, origins, made.triangles);
    out.stop();
}
