// Makes the call that answers the request `solid`, and prints the answer.
use case_lines::Lines;

pub fn solid(out: &mut Lines, bytes: &[u8]) {
    let line = solid_outcome::printed(bytes);
    out.bytes(&line.bytes[..line.used]);
    out.stop();
}
