// The words of standard input, one at a time. A read that fails counts as the end of the input.
ghost use Rattle.std.specs.Prelude.{◌≡◌, ◌+◌, ◌<◌, ◌≤◌, [], IfSome, IsSome, MatchOption, take};

use case_fronts::front;
use std::io::{Read, Stdin};

// A word as it stands in the letters: how many it has, none at the end of the input, and whether it is the first on its line.
#[derive(Clone, Copy)]
pub struct Word {
    pub length: usize,
    pub first: bool,
}

#[derive(Drop)]
pub struct Words {
    // Where bytes come from.
    input: Stdin,
    // The buffer holds bytes up to end, and the next one is at at. It is an array, as letters is, since no crate here takes memory from a heap. A proved
    // loop has to end, and nothing says that the input does: so bytes are counted down, from a number that no run uses up, and left of them may still
    // come.
    buffer: [u8; 65536],
    at: usize,
    end: usize,
    left: usize,
    // Whether no word has begun on this line.
    fresh: bool,
    // The word at hand, that is not understood yet, and its letters. The longest word of a request is 65,536 bytes in hex.
    word: Option<Word>,
    letters: [u8; 131072],
    // The bytes at hand lie within the buffer, and no more of them are at hand than may still come.
    ghost within: { end ≤ 65536 },
    ghost due: { end ≤ at + left },
}

impl Words {
    // Before the first byte.
    pub fn new(input: Stdin) -> Words
        ensures { result.word ≡ None }
    {
        Words {
            input,
            buffer: [0; 65536],
            at: 0,
            end: 0,
            left: usize::MAX,
            fresh: true,
            word: None,
            letters: [0; 131072],
        }
    }

    // The next byte, unless the input has ended.
    fn peek(&mut self) -> Option<u8>
        ensures left { self.new.left ≡ self.old.left }
        ensures at_hand { IsSome result → self.new.at < self.new.end }
    {
        if self.end <= self.at {
            let got = self.input.read(&mut self.buffer).unwrap_or(0);
            self.at = 0;
            self.end = got.min(self.left);
        }
        if self.at < self.end {
            Some(self.buffer[self.at])
        } else {
            None
        }
    }

    // Past the byte that is next.
    fn pass(&mut self)
        requires { self.old.at < self.old.end }
        ensures { self.new.left + 1 ≡ self.old.left }
    {
        self.at += 1;
        self.left -= 1;
    }

    // Past white space: at the next word, or at the end of the input.
    fn skip_space(&mut self)
        ensures { self.new.left ≤ self.old.left }
    {
        // No `for`: it goes on as long as the input brings bytes.
        while let Some(byte) = self.peek() {
            if !byte.is_ascii_whitespace() {
                return;
            }
            self.pass();
            if byte == b'\n' {
                self.fresh = true;
            }
        }
    }

    // Puts the letters up to the next white space, or up to the end of the input, among the letters, and answers how many they are. A word longer than
    // there is room for is cut, and begins with a question mark then, so that nothing takes it for another word.
    fn spell(&mut self) -> usize
        ensures { result + self.new.left ≤ self.old.left }
    {
        let mut length = 0;
        // No `for`: it goes on as long as the input brings bytes.
        while let Some(byte) = self.peek() {
            if byte.is_ascii_whitespace() {
                return length;
            }
            self.pass();
            if length < self.letters.len() {
                self.letters[length] = byte;
                length += 1;
            } else {
                self.letters[0] = b'?';
            }
        }
        length
    }

    // The next word, which is at hand afterwards.
    pub fn next(&mut self) -> Word
        ensures at_hand { self.new.word ≡ Some result }
        ensures spent { result.length + self.new.left ≤ self.old.left }
    {
        self.skip_space();
        let first = self.fresh;
        self.fresh = false;
        let length = self.spell();
        let word = Word { length, first };
        self.word = Some(word);
        word
    }

    // The word at hand, which is read only when it is asked for: no answer waits for the request behind it.
    pub fn look(&mut self) -> Word
        ensures at_hand { self.new.word ≡ Some result }
        ensures kept { IfSome self.old.word (λ _. self.new ≡ self.old) }
        ensures spent { self.new.left ≤ self.old.left }
    {
        match self.word {
            Some(word) => word,
            None => self.next(),
        }
    }

    // The letters of the word at hand, none where it was not asked for.
    pub fn letters(&self) -> &[u8]
        ensures { MatchOption self.now.word (result.now ≡ [])
            (λ word. result.now ≡ take word.length self.now.letters) }
    {
        match self.word {
            Some(word) => front(&self.letters, word.length),
            None => &[],
        }
    }

    // The word at hand is understood.
    pub fn understood(&mut self)
        ensures { self.new ≡ record self.old { word = None } }
    {
        self.word = None;
    }
}
