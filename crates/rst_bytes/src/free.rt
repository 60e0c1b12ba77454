// Bytes that are none of some others, passed many at a time.
ghost use Rattle.std.specs.Prelude.{◌≡◌, ◌≤◌, length};
ghost use Rattle.rst_bytes.specs.Escaped.{is_stop};
ghost use Rattle.rst_bytes.specs.Free.{is_other, free_front_of};

use crate::lanes;
use std::simd::prelude::*;

// Whether b is p or q.
#[tactic(auto, unfolding(crate::specs::Escaped::is_stop))]
pub fn is_stop(p: u8, q: u8, b: u8) -> bool
    ensures { result ≡ is_stop p q b }
{
    b == p || b == q
}

// Whether b is none of p, q and x.
#[tactic(auto, unfolding(crate::specs::Free::is_other))]
fn is_other(p: u8, q: u8, x: u8, b: u8) -> bool
    ensures { result ≡ is_other p q x b }
{
    !(is_stop(p, q, b) || b == x)
}

// How many bytes at the front are none of p, q and x. They are passed by 16, and the last ones, fewer than 16, one by one.
pub fn free_front(s: &[u8], p: u8, q: u8, x: u8) -> usize
    ensures within { result ≤ length s.now }
    ensures front { result ≡ free_front_of p q x s.now }
{
    let mut i = 0;
    while let Some(chunk) = s[i..].first_chunk::<16>() {
        let n = lanes::free_front(u8x16::from_array(*chunk), p, q, x);
        i += n;
        if n < 16 {
            return i;
        }
    }
    i + s[i..].iter().take_while(|&&b| is_other(p, q, x, b)).count()
}
