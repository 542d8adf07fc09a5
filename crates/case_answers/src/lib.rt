// The requests on a solid or an origin, one function each: it reads the parts, and where all are understood the answer is printed.
#![tactic(auto)]

mod calls;

use calls::Side;
use case_lines::Lines;
use case_parts::parts;
use case_parts::parts::Unread;
use case_requests::common;
use case_words::input::Words;

fn side(letter: &[u8]) -> Option<Side> {
    match letter {
        b"A" => Some(Side::A),
        b"B" => Some(Side::B),
        _ => None,
    }
}

pub fn count(words: &mut Words, out: &mut Lines) -> Result<(), Unread> {
    let mut points = [0.0; 8192];
    let mut corners = [0; 8192];
    let side = parts::meaning(words, side)?;
    let v = common::point(words)?;
    let solid = common::solid(words, b"sp", &mut points, b"sc", &mut corners)?;
    calls::count(out, side, v, solid);
    Ok(())
}

pub fn admit(words: &mut Words, out: &mut Lines) -> Result<(), Unread> {
    let mut points = [0.0; 8192];
    let mut corners = [0; 8192];
    let solid = common::solid(words, b"sp", &mut points, b"sc", &mut corners)?;
    calls::admit(out, solid);
    Ok(())
}

// The lists of this request are not looked at by any check, so all of their numbers matter: longer lists than there is room for have no answer.
pub fn shown(words: &mut Words, out: &mut Lines) -> Result<(), Unread> {
    let mut ac = [0; 8192];
    let mut bc = [0; 8192];
    let n = parts::list(words, b"ac", &mut ac, parts::corner)?;
    let m = parts::list(words, b"bc", &mut bc, parts::corner)?;
    let origin = parts::named(words, b"origin", u32::MAX as usize)?;
    match (ac.get(..n), bc.get(..m)) {
        (Some(ac), Some(bc)) => calls::shown(out, ac, bc, origin),
        _ => out.unknown(),
    }
    Ok(())
}
