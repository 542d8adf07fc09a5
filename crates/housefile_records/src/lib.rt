// One record: its decoding, and its bytes put into a file.
#![tactic(auto)]

ghost use Rattle.std.specs.Prelude.{◌≡◌, false, ◌+◌, ◌≤◌, length};
ghost use Rattle.std.proofs.lemmas.List.Edits.{sets};
ghost use Rattle.std.specs.Float.Ieee.{is_nan};
ghost use Rattle.list_words.specs.Lists.{any};
ghost use Rattle.numbers.specs.Numbers as Nu;
ghost use Rattle.points.specs.Points.{coordinates};
ghost use Rattle.housefile.specs.Records as Rc;

use housefile::Record;
use numbers::in_bytes;
use points::Point;

// The marks `VX`, `FC` and `EN` as numbers, low byte first.
const VX: u64 = 0x5856;

const FC: u64 = 0x4346;

const EN: u64 = 0x4e45;

fn corner_at(bytes: &[u8], at: usize) -> u32
    requires { at + 4 ≤ length bytes.now }
    ensures { result ≡ Nu.number_at at 4 bytes.now }
{
    in_bytes::number_at(bytes, at, 4) as u32
}

// The record that a file, or the rest of one, begins with; `None` where the layout knows none.
pub fn decode(bytes: &[u8]) -> Option<Record>
    ensures { result ≡ Rc.decoded bytes.now }
{
    if bytes.len() < 2 {
        return None;
    }
    match in_bytes::number_at(bytes, 0, 2) {
        VX if bytes.len() >= 26 => Some(Record::Vx(Point {
            x: in_bytes::float_at(bytes, 2),
            y: in_bytes::float_at(bytes, 10),
            z: in_bytes::float_at(bytes, 18),
        })),
        FC if bytes.len() >= 14 => Some(Record::Fc(
            corner_at(bytes, 2),
            corner_at(bytes, 6),
            corner_at(bytes, 10),
        )),
        EN => Some(Record::En),
        _ => None,
    }
}

pub fn put_vertex(v: Point, bytes: &mut [u8], at: usize)
    requires { (at + 26 ≤ length bytes.old) × (any is_nan (coordinates v) ≡ false) }
    ensures { bytes.new ≡ sets bytes.old at (Rc.encoded (Record.Vx v)) }
{
    in_bytes::put_number(VX, 2, bytes, at);
    in_bytes::put_float(v.x, bytes, at + 2);
    in_bytes::put_float(v.y, bytes, at + 10);
    in_bytes::put_float(v.z, bytes, at + 18);
}

pub fn put_facet(p: u32, q: u32, r: u32, bytes: &mut [u8], at: usize)
    requires { at + 14 ≤ length bytes.old }
    ensures { bytes.new ≡ sets bytes.old at (Rc.encoded (Record.Fc p q r)) }
{
    in_bytes::put_number(FC, 2, bytes, at);
    in_bytes::put_number(p as u64, 4, bytes, at + 2);
    in_bytes::put_number(q as u64, 4, bytes, at + 6);
    in_bytes::put_number(r as u64, 4, bytes, at + 10);
}

pub fn put_end(bytes: &mut [u8], at: usize)
    requires { at + 2 ≤ length bytes.old }
    ensures { bytes.new ≡ sets bytes.old at (Rc.encoded Record.En) }
{
    in_bytes::put_number(EN, 2, bytes, at);
}
