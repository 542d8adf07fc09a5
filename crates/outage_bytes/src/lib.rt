// A row's bytes decoded: the one place in code that knows a row's layout.
#![tactic(auto)]

ghost use Rattle.std.specs.Prelude.{◌≡◌, ◌||◌, ◌<◌, length};
ghost use Rattle.outage_rows.specs.Row as Ro;
ghost use Rattle.outage_bytes.specs.Words as Ow;

use numbers::{bits, in_bytes};
use outage_rows::{Bound, Range, Row};

// The mark `RW` as a number, low byte first.
const RW: u64 = 0x5752;

fn flag(row: &[u8], i: usize) -> bool
    requires { (length row.now ≡ 53) × (i < 8) }
    ensures { result ≡ Ow.flag row.now i }
{
    bits::bit(in_bytes::number_at(row, 52, 1), i)
}

// A flag set that is no bound's?
fn stray_flag(row: &[u8]) -> bool
    requires { length row.now ≡ 53 }
    ensures { result ≡ (Ow.flag row.now 6 || Ow.flag row.now 7) }
{
    flag(row, 6) || flag(row, 7)
}

// Another length, another mark, or such a flag?
pub fn no_row(row: &[u8]) -> bool
    ensures { result ≡ Ro.no_row row.now }
{
    row.len() != 53 || in_bytes::number_at(row, 0, 2) != RW || stray_flag(row)
}

#[tactic(auto, unfolding(outage_rows::specs::Row::bound))]
fn bound(row: &[u8], i: usize) -> Bound
    requires { (length row.now ≡ 53) × (i < 6) }
    ensures { result ≡ Ro.bound row.now i }
{
    Bound {
        value: in_bytes::float_at(row, 4 + 8 * i),
        flag: flag(row, i),
    }
}

// The two bounds on the axis with the number k.
fn range(row: &[u8], k: usize) -> Range
    requires { (length row.now ≡ 53) × (k < 3) }
    ensures { result ≡ Ow.range row.now k }
{
    Range {
        low: bound(row, 2 * k),
        high: bound(row, 2 * k + 1),
    }
}

#[tactic(auto, unfolding(outage_rows::specs::Row::row))]
pub fn decode(row: &[u8]) -> Row
    requires { length row.now ≡ 53 }
    ensures { result ≡ Ro.row row.now }
{
    Row {
        unit: in_bytes::number_at(row, 2, 2) as u16,
        x: range(row, 0),
        y: range(row, 1),
        z: range(row, 2),
    }
}
