// The lines of an answer. They wait in a list, and go to standard output when it is full or the answer ends. Lines that cannot be written are lost.
#![tactic(auto)]

ghost use Rattle.std.specs.Prelude.{◌≡◌, ◌≤◌};

use solids::Answer;
use std::fmt;
use std::fmt::{Display, Formatter};
use std::io::{Stdout, Write};

// The lines that wait to be written, how many bytes of them there are, and where they go. They wait in an array, since no crate here takes memory from a
// heap.
#[derive(Drop)]
pub struct Lines {
    waiting: [u8; 65536],
    used: usize,
    output: Stdout,
    ghost within: { used ≤ 65536 },
}

impl Lines {
    pub fn new(output: Stdout) -> Lines
        ensures { result.used ≡ 0 }
    {
        Lines {
            waiting: [0; 65536],
            used: 0,
            output,
        }
    }

    // Writes what waits.
    fn flush(&mut self)
        ensures { self.new.used ≡ 0 }
    {
        let _ = self.output.write_all(&self.waiting[..self.used]);
        self.used = 0;
    }

    fn byte(&mut self, next: u8) {
        if self.used == self.waiting.len() {
            self.flush();
        }
        self.waiting[self.used] = next;
        self.used += 1;
    }

    pub fn bytes(&mut self, all: &[u8]) {
        for byte in all {
            self.byte(*byte);
        }
    }

    // What `write!` and `writeln!` call: nothing that goes to these lines fails.
    pub fn write_fmt<D: Display + Drop>(&mut self, text: D) {
        let _ = fmt::Write::write_fmt(self, text);
    }

    // ANSWER WHO PLACE, with which an answer begins.
    pub fn begin(&mut self, answer: Answer) {
        let who = letter(answer.who);
        write!(self, "{} {who} {}", answer.number, answer.place);
    }

    // The lines of the first n vertices, or of all that the list has.
    pub fn vertices(&mut self, list: &[f64], n: usize) {
        for [x, y, z] in list.as_chunks::<3>().0.iter().take(n) {
            writeln!(self, "v {} {} {}", Pattern(*x), Pattern(*y), Pattern(*z));
        }
    }

    // The lines of the first n facets, or of all that the list has.
    pub fn facets(&mut self, list: &[u32], n: usize) {
        for [a, b, c] in list.as_chunks::<3>().0.iter().take(n) {
            writeln!(self, "f {a} {b} {c}");
        }
    }

    // The lines of the first n triangles with their origins, or of all that the lists have.
    pub fn triangles(&mut self, list: &[u32], origins: &[u32], n: usize) {
        for ([a, b, c], origin) in list.as_chunks::<3>().0.iter().zip(origins).take(n) {
            writeln!(self, "t {a} {b} {c} {origin}");
        }
    }

    // Two hex digits for each byte.
    pub fn pairs(&mut self, list: &[u8]) {
        for byte in list {
            write!(self, "{byte:02x}");
        }
    }

    // All numbers of a list, each behind a space.
    pub fn listed(&mut self, list: &[u32]) {
        for number in list {
            write!(self, " {number}");
        }
    }

    // The full stop behind an answer, with which all that waits is written.
    pub fn stop(&mut self)
        ensures { self.new.used ≡ 0 }
    {
        writeln!(self, ".");
        self.flush();
    }

    // The answer to a request that cannot be read.
    pub fn unknown(&mut self)
        ensures { self.new.used ≡ 0 }
    {
        writeln!(self, "?");
        self.stop();
    }
}

impl fmt::Write for Lines {
    fn write_str(&mut self, s: &str) -> fmt::Result {
        self.bytes(s.as_bytes());
        Ok(())
    }
}

// The letter for who a refusal speaks of, which is a number since C reads answers too.
fn letter(who: u32) -> char {
    match who {
        0 => '-',
        1 => 'A',
        2 => 'B',
        3 => 'S',
        _ => 'P',
    }
}

// A coordinate as its bit pattern. No answer has a NaN, which has no pattern.
#[derive(Clone, Copy)]
struct Pattern(f64);

impl Display for Pattern {
    fn fmt<W: fmt::Write>(&self, f: &mut Formatter<W>) -> fmt::Result {
        if self.0.is_nan() {
            return write!(f, "nan");
        }
        let bits = self.0.to_bits();
        write!(f, "{bits:016x}")
    }
}
