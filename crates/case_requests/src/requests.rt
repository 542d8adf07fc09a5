// Where a request begins, and what is held of its lists.
ghost use Rattle.std.specs.Prelude.{◌<◌, IfSome, IsSome, IsTrue};

use case_words::input::Words;

#[derive(Clone, Copy)]
pub enum Kind {
    Op,
    Count,
    Admit,
    Shown,
    Read,
    Write,
    Box,
    Solid,
}

// The request that a word begins.
pub fn begun(word: &[u8]) -> Option<Kind> {
    match word {
        b"op" => Some(Kind::Op),
        b"count" => Some(Kind::Count),
        b"admit" => Some(Kind::Admit),
        b"shown" => Some(Kind::Shown),
        b"read" => Some(Kind::Read),
        b"write" => Some(Kind::Write),
        b"box" => Some(Kind::Box),
        b"solid" => Some(Kind::Solid),
        _ => None,
    }
}

// Past a request that cannot be read, from its word that was not understood on: at the next line that begins with a request word, or at the end of the
// input.
pub fn resume(words: &mut Words)
    ensures at_hand { IsSome words.new.word }
    ensures begins { IfSome words.new.word (λ w. 0 < w.length → IsTrue w.first) }
{
    let mut word = words.look();
    // No `for`: it goes on as long as the input brings words.
    while word.length > 0 {
        if word.first && begun(words.letters()).is_some() {
            return;
        }
        word = words.next();
    }
}

// How many numbers of a solid's list of n are held, in room for 8,192. Of a longer list only its length can matter, since checks 1 and 2 refuse it
// before any number is looked at: it is cut to a length with the same remainder by three that is still above both limits.
pub fn held(n: usize) -> usize {
    if n <= 8192 { n } else { 8190 + n % 3 }
}
