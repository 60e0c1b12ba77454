// Word characters, and the maximal run of them.
ghost use Rattle.std.specs.Prelude.{◌≡◌, T};
ghost use Rattle.rst_bytes.specs.Word.{in_ranges, is_ascii_word, is_word, word_of};
ghost use Rattle.rst_bytes.specs.Inner.{apart};

use crate::domain::char_at;

// The word characters above 7F: the first and the last code point of each range.
const WORD_RANGES: [(u32, u32); 8] = [
    (0xAA, 0xAA),
    (0xB2, 0xB3),
    (0xB5, 0xB5),
    (0xB9, 0xBA),
    (0xBC, 0xBE),
    (0xC0, 0xD6),
    (0xD8, 0xF6),
    (0xF8, 0x24F),
];

// Whether c is in one of the ranges of a table whose ranges are in order and apart: only the first that does not end below c can have it.
fn in_ranges(t: &[(u32, u32)], c: u32) -> bool
    requires { T (apart t.now) }
    ensures { result ≡ in_ranges c t.now }
{
    let k = t.partition_point(|r| r.1 < c);
    t.get(k).is_some_and(|r| r.0 <= c)
}

// An ASCII letter or digit, '-' or '_'. Small letters, of which a text has the most, are told first: by one `matches!` 250 references took 5
// in 100 instructions more, where the bar leaves little, and a short note, where it leaves nothing, 1.
fn is_ascii_word(c: u32) -> bool
    ensures { result ≡ is_ascii_word c }
{
    if 0x61 <= c {
        return c <= 0x7A;
    }
    if c < 0x30 {
        return c == 0x2D;
    }
    if c <= 0x39 {
        return true;
    }
    if c < 0x41 {
        return false;
    }
    if c <= 0x5A {
        return true;
    }
    c == 0x5F
}

// Whether a code point is a word character.
pub fn is_word(c: u32) -> bool
    ensures { result ≡ is_word c }
{
    if c < 0x80 {
        is_ascii_word(c)
    } else {
        in_ranges(&WORD_RANGES, c)
    }
}

// How many bytes the maximal run of word characters at the front takes.
pub fn word_run(s: &[u8]) -> usize
    ensures { result ≡ word_of s.now }
{
    let mut i = 0;
    // No `for`: a character takes one byte or two, as in `first_outside`.
    while let Some((len, point)) = char_at(s, i) {
        if !is_word(point) {
            return i;
        }
        i += len;
    }
    i
}
