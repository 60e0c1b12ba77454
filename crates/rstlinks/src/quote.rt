// Strings in quotes: "bytes below 20, above 7E, `"` and backslash are a backslash and two uppercase hex digits".
ghost use Rattle.std.specs.Prelude.{◌+◌, ◌*◌, ◌<◌, ◌≤◌, ◌≡◌, ◌++◌, length, take, Some};
ghost use Rattle.rstlinks.specs.Quote.{is_plain, hex_digit, shown_byte, shown_bytes, quoted};

use std::{fmt, str};

// How many bytes of a string are written at once.
const PART_LEN: usize = 256;

#[tactic(auto, unfolding(crate::specs::Quote::is_plain))]
fn is_plain(b: u8) -> bool
    ensures { result ≡ is_plain b }
{
    (0x20..=0x7E).contains(&b) && b != b'"' && b != b'\\'
}

#[tactic(auto, unfolding(crate::specs::Quote::hex_digit))]
fn hex_digit(n: u8) -> u8
    requires { n < 16 }
    ensures { result ≡ hex_digit n }
{
    if n < 10 { b'0' + n } else { n - 10 + b'A' }
}

// A byte as it stands in quotes, put at a place; where it ends.
fn put(b: u8, line: &mut [u8], at: usize) -> usize
    requires { at + 3 ≤ length line.old }
    ensures shown { take result line.new ≡ take at line.old ++ shown_byte b }
    ensures end { (at ≤ result) × (result ≤ at + 3) }
{
    if is_plain(b) {
        line[at] = b;
        return at + 1;
    }
    line[at] = b'\\';
    line[at + 1] = hex_digit(b / 16);
    line[at + 2] = hex_digit(b % 16);
    at + 3
}

// A part of a string as it stands in quotes, put at the front of the line.
fn shown<'a>(part: &[u8], line: &'a mut [u8]) -> &'a str
    requires { 3 * length part.now ≤ length line.old }
    ensures { result.now ≡ shown_bytes part.now }
{
    let mut at = 0;
    for b in part {
        at = put(*b, line, at);
    }
    str::from_utf8(&line[..at]).unwrap()
}

// A string that prints in quotes.
#[derive(Clone, Copy)]
pub struct Quoted<'a>(pub &'a [u8]);

// Written by parts and not by bytes, so that a long string takes few calls.
impl fmt::Display for Quoted<'_> {
    ghost output = { λ s. Some (quoted s.0.now) };

    fn fmt<W: fmt::Write>(&self, f: &mut fmt::Formatter<W>) -> fmt::Result {
        let mut line = [0u8; 3 * PART_LEN];
        f.write_char('"')?;
        for part in self.0.chunks(PART_LEN) {
            f.write_str(shown(part, &mut line))?;
        }
        f.write_char('"')
    }
}
