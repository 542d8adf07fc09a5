// The request of an operation: it reads the parts, and where all are understood the answer is printed.
#![tactic(auto)]

mod calls;

use case_fronts::front_mut;
use case_lines::Lines;
use case_parts::parts;
use case_parts::parts::Unread;
use case_requests::common;
use case_requests::common::{Held, Room};
use case_words::input::Words;

// Lends the lists of the result, of at most 16,384 vertices and 65,536 triangles.
fn operated(out: &mut Lines, code: u32, a: Held, b: Held, room: Room) {
    let mut coordinates = [0.0; 49152];
    let mut corners = [0; 196608];
    let mut origins = [0; 65536];
    calls::op(
        out,
        code,
        a,
        b,
        front_mut(&mut coordinates, room.coordinates),
        front_mut(&mut corners, room.corners),
        front_mut(&mut origins, room.origins),
    );
}

pub fn op(words: &mut Words, out: &mut Lines) -> Result<(), Unread> {
    let mut ap = [0.0; 8192];
    let mut ac = [0; 8192];
    let mut bp = [0.0; 8192];
    let mut bc = [0; 8192];
    let code = parts::corner(words)?;
    let a = common::solid(words, b"ap", &mut ap, b"ac", &mut ac)?;
    let b = common::solid(words, b"bp", &mut bp, b"bc", &mut bc)?;
    let room = common::operation_room(words)?;
    operated(out, code, a, b, room);
    Ok(())
}
