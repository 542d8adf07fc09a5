// Numbers and bytes of a word's letters.
ghost use Rattle.std.specs.Prelude.{◌<◌, IfSome};

// What a letter is worth as a hex digit, which is lower-case.
fn digit(letter: u8) -> Option<u8>
    ensures { IfSome result (λ d. d < 16) }
{
    match letter {
        b'0'..=b'9' => Some(letter - b'0'),
        b'a'..=b'f' => Some(letter - b'a' + 10),
        _ => None,
    }
}

// The number that all letters of a word give in a base.
pub fn number_of(word: &[u8], base: usize) -> Option<usize> {
    if word.is_empty() {
        return None;
    }
    let mut value = 0usize;
    for letter in word {
        let next = usize::from(digit(*letter)?);
        if base <= next {
            return None;
        }
        value = value.checked_mul(base)?.checked_add(next)?;
    }
    Some(value)
}

// Puts the byte that two hex digits each stand for into each place of bytes: the word has to be as long as they need.
pub fn pairs(word: &[u8], bytes: &mut [u8]) -> Option<()> {
    let (digits, rest) = word.as_chunks::<2>();
    if digits.len() != bytes.len() || !rest.is_empty() {
        return None;
    }
    for (byte, [high, low]) in bytes.iter_mut().zip(digits) {
        *byte = digit(*high)? * 16 + digit(*low)?;
    }
    Some(())
}
