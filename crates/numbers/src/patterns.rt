// The f64 of a bit pattern.
ghost use Rattle.std.specs.Prelude.{◌≡◌};
ghost use Rattle.std.specs.Float.{binary64};
ghost use Rattle.std.specs.Float.Ieee.{nan_bits, of_bits};

// Is a pattern a NaN's?
pub fn blank_bits(pattern: u64) -> bool
    ensures { result ≡ nan_bits binary64 pattern }
{
    pattern % 9223372036854775808 > 9218868437227405312
}

// Whatever a NaN's pattern, the one NaN.
pub fn float(pattern: u64) -> f64
    ensures { result ≡ of_bits binary64 pattern }
{
    if blank_bits(pattern) {
        0.0 / 0.0
    } else {
        f64::from_bits(pattern)
    }
}
