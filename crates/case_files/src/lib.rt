// The requests of the house file and of outage rows: a function reads the parts, and where all are understood the answer is printed.
#![tactic(auto)]

mod calls;

use case_fronts::front_mut;
use case_lines::Lines;
use case_parts::parts;
use case_parts::parts::Unread;
use case_requests::common;
use case_words::input::Words;

// A request that takes bytes and two rooms. No solid that the reader accepts, and no box, fills the lists that are lent here: more room would change
// nothing.
fn taken_in<F: FnOnce(&mut Lines, &[u8], &mut [f64], &mut [u32])>(
    words: &mut Words,
    out: &mut Lines,
    answer: F,
) -> Result<(), Unread>
    requires { F.IsAlwaysCallable answer }
{
    let mut bytes = [0; 65536];
    let mut points = [0.0; 8192];
    let mut corners = [0; 8192];
    let bytes = parts::bytes(words, &mut bytes)?;
    let np = parts::named(words, b"room", usize::MAX)?;
    let nc = parts::number(words, usize::MAX)?;
    answer(
        out,
        bytes,
        front_mut(&mut points, np),
        front_mut(&mut corners, nc),
    );
    Ok(())
}

pub fn read(words: &mut Words, out: &mut Lines) -> Result<(), Unread> {
    taken_in(words, out, calls::read)
}

pub fn boxed(words: &mut Words, out: &mut Lines) -> Result<(), Unread> {
    taken_in(words, out, calls::boxed)
}

// No file of a solid that the writer accepts fills the list that is lent here.
pub fn write(words: &mut Words, out: &mut Lines) -> Result<(), Unread> {
    let mut points = [0.0; 8192];
    let mut corners = [0; 8192];
    let mut bytes = [0; 65536];
    let solid = common::solid(words, b"sp", &mut points, b"sc", &mut corners)?;
    let room = parts::named(words, b"room", usize::MAX)?;
    calls::write(out, solid, front_mut(&mut bytes, room));
    Ok(())
}
