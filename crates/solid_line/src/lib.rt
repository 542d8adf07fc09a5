// The line that the program `solid` prints is a function of its input's bytes: specs/ has it. Its code is in crates/solid_input, solid_outcome and
// solid_printing; here is the text that they answer, and how it grows.
#![tactic(auto)]

ghost use Rattle.std.specs.Prelude.{◌≡◌, [], ◌∷◌, ◌+◌, ◌<◌, ◌≤◌, length};
ghost use Rattle.numbers.specs.Digits as Di;
ghost use Rattle.solid_line.specs.Words as Wo;

use numbers::decimal;

// A text is the first `used` of its bytes, which have room for a line of three numbers of any size; behind it are zeros.
// An array with its length, since the library takes no memory from the heap.
#[derive(Clone, Copy)]
pub struct Text {
    pub bytes: [u8; 64],
    pub used: usize,
}

impl Text {
    pub const EMPTY: Text = Text {
        bytes: [0; 64],
        used: 0,
    };

    pub fn push(&mut self, byte: u8)
        requires { self.old.used < 64 }
        ensures { Wo.Then self.old (byte ∷ []) self.new }
    {
        self.bytes[self.used] = byte;
        self.used += 1;
    }

    pub fn push_number(&mut self, n: usize)
        requires { self.old.used + length (Di.digits n) ≤ 64 }
        ensures { Wo.Then self.old (Di.digits n) self.new }
    {
        self.used = decimal::put_digits(n, &mut self.bytes, self.used);
    }

    // A number behind a separator.
    pub fn push_after(&mut self, separator: u8, n: usize)
        requires { self.old.used + length (Di.digits n) < 64 }
        ensures { Wo.Then self.old (separator ∷ Di.digits n) self.new }
    {
        self.push(separator);
        self.push_number(n);
    }
}
