// The pieces of the two lower layers by number, and their answers in numbers: what recorded answers are replayed on, and what is
// compared with the Rust's own. For the tests alone, no part of what is delivered. A function only hands on what the piece answers.
#![tactic(auto)]

pub mod parser;

ghost use Rattle.std.specs.Prelude.{◌≡◌};
ghost use Rattle.rst_bytes.specs.Domain.{char_of};
ghost use Rattle.pieces.specs.Numbered.{taken, of_part, of_character, of_word, of_set, of_tag, piece_of};

use rst_bytes::domain::{char_at, first_outside};
use rst_bytes::escaped::escaped;
use rst_bytes::line::{line_ending, multispace0, newline, not_line_ending, space0, space1};
use rst_bytes::trim::trim_end;
use rst_bytes::word::{is_word, word_run};

// An answer: whether there is one (1 or 0), its value, and the code point of a character. What is not named is 0. Numbers, as C reads
// it.
#[repr(C)]
#[derive(Clone, Copy, Debug, Default, PartialEq, Eq)]
pub struct Answer {
    pub accepted: usize,
    pub value: usize,
    pub point: usize,
}

fn taken(n: usize) -> Answer
    ensures { result ≡ taken n }
{
    Answer {
        accepted: 1,
        value: n,
        ..Answer::default()
    }
}

impl From<Option<usize>> for Answer {
    ghost from_gives = { λ p r. r ≡ of_part p };

    fn from(p: Option<usize>) -> Answer {
        match p {
            Some(n) => taken(n),
            None => Answer::default(),
        }
    }
}

impl From<Option<(usize, u32)>> for Answer {
    ghost from_gives = { λ c r. r ≡ of_character c };

    fn from(c: Option<(usize, u32)>) -> Answer {
        match c {
            Some((len, point)) => Answer {
                accepted: 1,
                value: len,
                point: point as usize,
            },
            None => Answer::default(),
        }
    }
}

// Whether the character at the front is a word character.
fn word_at_front(s: &[u8]) -> Answer
    ensures { result ≡ of_word (char_of s.now) }
{
    match char_at(s, 0) {
        Some((_, point)) if is_word(point) => taken(0),
        _ => Answer::default(),
    }
}

// `escaped` with a stop set by number: backtick, '<', '<' and '>', ':'.
fn escaped_to(s: &[u8], set: usize) -> Answer
    ensures { result ≡ of_set set s.now }
{
    let (a, b) = match set {
        0 => (b'`', b'`'),
        1 => (b'<', b'<'),
        2 => (b'<', b'>'),
        _ => (b':', b':'),
    };
    escaped(s, a, b).into()
}

// `tag`: whether the bytes behind the place begin with those before it.
fn tag(s: &[u8], place: usize) -> Answer
    ensures { result ≡ of_tag place s.now }
{
    match s.split_at_checked(place) {
        Some((front, behind)) if rst_bytes::tag::tag(behind, front) => taken(place),
        _ => Answer::default(),
    }
}

// What the piece of this number answers; the parameter is a place for 2 and 13, and a stop set for 6.
pub fn rst_piece(kind: usize, parameter: usize, s: &[u8]) -> Answer
    ensures { result ≡ piece_of kind parameter s.now }
{
    match kind {
        1 => first_outside(s).into(),
        2 => char_at(s, parameter).into(),
        3 => word_at_front(s),
        4 => taken(word_run(s)),
        5 => taken(trim_end(s).len()),
        6 => escaped_to(s, parameter),
        7 => newline(s).into(),
        8 => line_ending(s).into(),
        9 => not_line_ending(s).into(),
        10 => taken(space0(s)),
        11 => space1(s).into(),
        12 => taken(multispace0(s)),
        13 => tag(s, parameter),
        _ => Answer::default(),
    }
}
