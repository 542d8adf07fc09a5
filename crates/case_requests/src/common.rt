// Parts that requests have in common: a solid, a point, the room of an operation.
use crate::requests::held;
use case_fronts::{Coordinates, Corners, front};
use case_parts::parts;
use case_parts::parts::Unread;
use case_words::input::Words;
use points::Point;

// What is held of a solid's lists.
#[derive(Clone, Copy)]
pub struct Held<'a> {
    pub points: &'a [f64],
    pub corners: &'a [u32],
}

// A solid with the names of its two lists, which are put at the start of the lists that are lent.
pub fn solid<'a>(
    words: &mut Words,
    points_name: &[u8],
    points: &'a mut Coordinates,
    corners_name: &[u8],
    corners: &'a mut Corners,
) -> Result<Held<'a>, Unread> {
    let n = parts::list(words, points_name, points, parts::coordinate)?;
    let m = parts::list(words, corners_name, corners, parts::corner)?;
    Ok(Held {
        points: front(points, held(n)),
        corners: front(corners, held(m)),
    })
}

pub fn point(words: &mut Words) -> Result<Point, Unread> {
    parts::word(words, b"pt")?;
    parts::word(words, b"3")?;
    Ok(Point {
        x: parts::coordinate(words)?,
        y: parts::coordinate(words)?,
        z: parts::coordinate(words)?,
    })
}

// The three numbers of an operation's room.
#[derive(Clone, Copy)]
pub struct Room {
    pub coordinates: usize,
    pub corners: usize,
    pub origins: usize,
}

pub fn operation_room(words: &mut Words) -> Result<Room, Unread> {
    Ok(Room {
        coordinates: parts::named(words, b"room", usize::MAX)?,
        corners: parts::number(words, usize::MAX)?,
        origins: parts::number(words, usize::MAX)?,
    })
}
