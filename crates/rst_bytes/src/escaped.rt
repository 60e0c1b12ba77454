// `escaped`: a part up to a stop byte, in which a backslash takes the byte after it along.
ghost use Rattle.std.specs.Prelude.{◌≡◌, ◌≤◌, ℕ, Some, IfSome, false, length, take};
ghost use Rattle.rst_bytes.specs.Escaped.{is_escapable, taking, escaped_of};
ghost use Rattle.rst_bytes.specs.Inner.{taken_on};

use crate::free::is_stop;
use crate::lanes::taken_front;
use std::simd::prelude::*;

// ESCAPABLE: space, backtick, ':', '<', '>', '_', backslash.
#[tactic(auto, unfolding(crate::specs::Escaped::is_escapable))]
pub fn is_escapable(b: u8) -> bool
    ensures { result ≡ is_escapable b }
{
    matches!(b, b' ' | b'`' | b':' | b'<' | b'>' | b'_' | b'\\')
}

// So many bytes at the front that they are taken, no escape in part: up to p or q or a wrong escape, or fewer, since it goes by 16 bytes and
// leaves the last ones to the caller.
pub fn escaped_front(s: &[u8], p: u8, q: u8) -> usize
    ensures within { result ≤ length s.now }
    ensures taken { taking p q false 0 (take result s.now) ≡ Some result }
{
    let mut i = 0;
    while let Some(chunk) = s[i..].first_chunk::<16>() {
        let n = taken_front(u8x16::from_array(*chunk), p, q);
        i += n;
        if n < 15 {
            return i;
        }
    }
    i
}

// The byte at the front, or the escape, if it is taken: how many bytes that is, 0 where the part ends; and nothing at a wrong escape.
#[tactic(auto, unfolding(crate::specs::Escaped::taking))]
fn take_one(s: &[u8], p: u8, q: u8) -> Option<usize>
    ensures within { IfSome result (λ n. n ≤ length s.now) }
    ensures taken { (n : ℕ) → taking p q false n s.now ≡ taken_on p q n s.now result }
{
    match s {
        [b'\\', e, ..] if is_escapable(*e) => Some(2),
        [b'\\', ..] => None,
        [b, ..] if !is_stop(p, q, *b) => Some(1),
        _ => Some(0),
    }
}

// The part up to p or q, whatever the first byte is.
fn take_escaped(s: &[u8], p: u8, q: u8) -> Option<usize>
    ensures { result ≡ taking p q false 0 s.now }
{
    // No `for` over bytes: an escape takes two.
    let mut i = 0;
    loop {
        match take_one(&s[i..], p, q)? {
            0 => return Some(i),
            n => i += n,
        }
        i += escaped_front(&s[i..], p, q);
    }
}

// `escaped` with the stop set of p and q; a set of one byte names it twice.
#[inline(never)]
#[tactic(auto, unfolding(crate::specs::Escaped::escaped_of))]
pub fn escaped(s: &[u8], p: u8, q: u8) -> Option<usize>
    ensures { result ≡ escaped_of p q s.now }
{
    match s {
        [] => Some(0),
        [b, ..] if is_stop(p, q, *b) => None,
        _ => take_escaped(s, p, q),
    }
}
