// The parts that requests are made of: fixed words, numbers, lists and bytes. A part that cannot be read leaves its word at hand.
ghost use Rattle.std.specs.Prelude.{◌≡◌, ◌≤◌, IfOk, IsSome, OnErr, OnOk, length, List, ℕ};
ghost use Rattle.std.specs.Fn.{FnOnceReturnsAt};

use case_fronts::front_mut;
use case_words::digits;
use case_words::input::Words;
use numbers::patterns;

// The word at hand is not the one that a part has to begin with, or stands for nothing that the part may be.
#[derive(Clone, Copy, Debug, PartialEq, Eq)]
pub struct Unread;

// What the word at hand stands for, as `of` reads its letters. A word that stands for nothing stays at hand.
pub fn meaning<T: Drop, F: FnOnce(&[u8]) -> Option<T>>(
    words: &mut Words,
    of: F,
) -> Result<T, Unread>
    requires { F.IsAlwaysCallable of }
    ensures understood { OnOk result (words.new.word ≡ None) }
    ensures at_hand { OnErr result (IsSome words.new.word) }
    ensures value { IfOk result (λ t. (w : List ℕ) × FnOnceReturnsAt F.FnOnce of w (Some t)) }
{
    words.look();
    let value = of(words.letters()).ok_or(Unread)?;
    words.understood();
    Ok(value)
}

// A fixed word.
pub fn word(words: &mut Words, name: &[u8]) -> Result<(), Unread>
    ensures understood { OnOk result (words.new.word ≡ None) }
    ensures at_hand { OnErr result (IsSome words.new.word) }
{
    meaning(words, |letters| (letters == name).then_some(()))
}

// A decimal number of at most most.
pub fn number(words: &mut Words, most: usize) -> Result<usize, Unread>
    ensures understood { OnOk result (words.new.word ≡ None) }
    ensures at_hand { OnErr result (IsSome words.new.word) }
    ensures limit { IfOk result (λ n. n ≤ most) }
{
    meaning(
        words,
        |letters| digits::number_of(letters, 10).filter(|n| *n <= most),
    )
}

// A fixed word and a number of at most most.
pub fn named(words: &mut Words, name: &[u8], most: usize) -> Result<usize, Unread>
    ensures { IfOk result (λ n. n ≤ most) }
{
    word(words, name)?;
    number(words, most)
}

// The bit pattern of an f64: a word of 16 hex digits.
pub fn coordinate(words: &mut Words) -> Result<f64, Unread>
    ensures understood { OnOk result (words.new.word ≡ None) }
    ensures at_hand { OnErr result (IsSome words.new.word) }
{
    let pattern = meaning(words, |letters| {
        if letters.len() == 16 {
            digits::number_of(letters, 16)
        } else {
            None
        }
    })?;
    Ok(patterns::float(pattern as u64))
}

// A number of 32 bits.
pub fn corner(words: &mut Words) -> Result<u32, Unread>
    ensures understood { OnOk result (words.new.word ≡ None) }
    ensures at_hand { OnErr result (IsSome words.new.word) }
{
    let value = number(words, u32::MAX as usize)?;
    Ok(value as u32)
}

// A list with its name and its length, which is answered. What the list has no room for is read and left out.
pub fn list<T: Copy, F: Fn(&mut Words) -> Result<T, Unread>>(
    words: &mut Words,
    name: &[u8],
    members: &mut [T],
    member: F,
) -> Result<usize, Unread>
    requires { F.IsAlwaysCallable member }
{
    let n = named(words, name, usize::MAX)?;
    for place in front_mut(members, n) {
        *place = member(words)?;
    }
    for _ in members.len()..n {
        member(words)?;
    }
    Ok(n)
}

// Bytes with their number, put at the start of a list. More than the list has room for are not understood.
pub fn bytes<'a>(words: &mut Words, list: &'a mut [u8]) -> Result<&'a [u8], Unread>
    ensures { IfOk result (λ bytes. length bytes.now ≤ length list.old) }
{
    let n = named(words, b"bytes", list.len())?;
    let bytes = front_mut(list, n);
    if n > 0 {
        meaning(words, |letters| digits::pairs(letters, bytes))?;
    }
    Ok(bytes)
}
