// Decimal digits.
ghost use Rattle.std.specs.Prelude.{◌≡◌, ◌+◌, ◌<◌, ◌≤◌, length};
ghost use Rattle.std.proofs.lemmas.List.Edits.{sets};
ghost use Rattle.numbers.specs.Digits as Di;

// The digit of a number below 10.
pub fn digit(n: usize) -> u8
    requires { n < 10 }
    ensures { result ≡ 0x30 + n }
{
    b'0' + n as u8
}

// A number's digits from a place on. Answers the place behind them.
pub fn put_digits(n: usize, bytes: &mut [u8], at: usize) -> usize
    requires { at + length (Di.digits n) ≤ length bytes.old }
    ensures stored { bytes.new ≡ sets bytes.old at (Di.digits n) }
    ensures next { result ≡ at + length (Di.digits n) }
{
    if n < 10 {
        bytes[at] = digit(n);
        return at + 1;
    }
    let last = put_digits(n / 10, bytes, at);
    bytes[last] = digit(n % 10);
    last + 1
}
