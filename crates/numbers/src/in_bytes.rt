// Numbers in bytes, low byte first.
ghost use Rattle.std.specs.Prelude.{◌≡◌, false, ◌+◌, ◌<◌, ◌≤◌, ◌^◌, length};
ghost use Rattle.std.proofs.lemmas.List.Edits.{sets};
ghost use Rattle.std.specs.Float.Ieee.{is_nan};
ghost use Rattle.numbers.specs.Numbers as Nu;

use crate::patterns;

// The number in n bytes from a place on.
pub fn number_at(bytes: &[u8], at: usize, n: usize) -> u64
    requires { (at + n ≤ length bytes.now) × (n ≤ 8) }
    ensures value { result ≡ Nu.number_at at n bytes.now }
    ensures small { result < 256 ^ n }
{
    let mut number: u64 = 0;
    for byte in bytes[at..at + n].iter().rev() {
        number = (*byte as u64) + 256 * number;
    }
    number
}

// The f64 in 8 bytes from a place on; whatever a NaN's pattern, a NaN.
#[tactic(auto, unfolding(crate::specs::Numbers::float_at))]
pub fn float_at(bytes: &[u8], at: usize) -> f64
    requires { at + 8 ≤ length bytes.now }
    ensures { result ≡ Nu.float_at at bytes.now }
{
    patterns::float(number_at(bytes, at, 8))
}

// A number put into n bytes from a place on.
pub fn put_number(number: u64, n: usize, bytes: &mut [u8], at: usize)
    requires { at + n ≤ length bytes.old }
    ensures { bytes.new ≡ sets bytes.old at (Nu.bytes n number) }
{
    let mut rest = number;
    for byte in bytes[at..at + n].iter_mut() {
        *byte = (rest % 256) as u8;
        rest /= 256;
    }
}

#[tactic(auto, unfolding(crate::specs::Numbers::float_bytes))]
pub fn put_float(x: f64, bytes: &mut [u8], at: usize)
    requires { (at + 8 ≤ length bytes.old) × (is_nan x ≡ false) }
    ensures { bytes.new ≡ sets bytes.old at (Nu.float_bytes x) }
{
    put_number(f64::to_bits(x), 8, bytes, at);
}
