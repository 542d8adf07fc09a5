// The program `solid`: one letter and two house files on standard input; the answer, the vertices and the triangles on standard output.
#![tactic(auto)]

ghost use Rattle.std.specs.Prelude.{◌≤◌, length};

use std::io::{Read, Stdin, Write};

// Reads until the list is full, the input ends or a read fails. Answers how many bytes now stand at its start.
// By hand: `read_exact` does not say how many bytes a shorter input had, and `read_to_end` takes heap.
fn read_full(mut input: Stdin, list: &mut [u8]) -> usize
    ensures { result ≤ length list.new }
{
    let mut done = 0;
    while done < list.len() {
        match input.read(&mut list[done..]) {
            Ok(0) => return done,
            Ok(n) => done += n,
            Err(_) => return done,
        }
    }
    done
}

// There is room for one byte more than an input may have, so that a longer one is seen to be too long: the line of these bytes is the line of the
// whole input (`Enough` of crates/solid_line/specs).
fn main(rt: HostRuntime) {
    let mut input = [0u8; 32769];
    let n = read_full(rt.stdin(), &mut input);
    let line = solid_outcome::printed(&input[..n]);
    let bytes = line.bytes;
    let used = line.used;
    let _ = rt.stdout().write_all(&bytes[..used]);
}
