// Vectors of bytes. Which lanes hold a byte is told by the bits of a number, and so many lanes are asked at once.
ghost use Rattle.std.specs.Prelude.{◌≡◌, ◌≤◌, ◌<◌, ◌-◌, if◌then◌else◌, eqb, ℕ, take, Some, true, false};
ghost use Rattle.rst_bytes.specs.Escaped.{is_escapable, is_stop, taking};
ghost use Rattle.rst_bytes.specs.Free.{free_front_of};
ghost use Rattle.rst_bytes.specs.Lanes.{test, Marks};

use std::simd::prelude::*;

// The lanes that hold b.
fn equal_to(v: u8x16, b: u8) -> u64
    ensures { Marks (λ c. eqb c b) v result }
{
    v.simd_eq(u8x16::splat(b)).to_bitmask()
}

// The lanes that hold p or q.
fn stops(v: u8x16, p: u8, q: u8) -> u64
    ensures { Marks (is_stop p q) v result }
{
    equal_to(v, p) | equal_to(v, q)
}

// The lanes that hold what a backslash may stand before.
fn escapables(v: u8x16) -> u64
    ensures { Marks is_escapable v result }
{
    (v.simd_eq(u8x16::splat(b' '))
        | v.simd_eq(u8x16::splat(b'`'))
        | v.simd_eq(u8x16::splat(b':'))
        | v.simd_eq(u8x16::splat(b'<'))
        | v.simd_eq(u8x16::splat(b'>'))
        | v.simd_eq(u8x16::splat(b'_'))
        | v.simd_eq(u8x16::splat(b'\\'))).to_bitmask()
}

// Every second bit.
const EVEN: u64 = 0x5555_5555_5555_5555;

// The bits behind those that are set and are not behind such a one themselves: of backslashes, the bytes that they take along. One sum tells of
// all runs of set bits, since its carries go through them (Langdale and Lemire).
fn behind(slashes: u64) -> u64 {
    let follows = slashes << 1;
    let odd_starts = slashes & !EVEN & !follows;
    let even_runs = odd_starts.wrapping_add(slashes);
    (EVEN ^ (even_runs << 1)) & follows
}

// The lowest bit that is set, of n bits: n if none is.
fn lowest(bits: u64, n: usize) -> usize
    requires { n < 64 }
    ensures within { result ≤ n }
    ensures below { (k : ℕ) → k < result → test bits k ≡ false }
    ensures at { result < n → test bits result ≡ true }
{
    (bits | 1 << n).trailing_zeros() as usize
}

// Place k, or the one before it where bit k is set.
fn before_escape(escaped: u64, k: usize) -> usize
    requires few { k < 64 }
    requires first { test escaped 0 ≡ false }
    ensures { result ≡ (if test escaped k then k - 1 else k) }
{
    k - ((escaped >> k) & 1) as usize
}

// How many bytes at the front are taken, up to p or q or a wrong escape, and no escape in part. That `behind` gives the right bits is tested here
// and not proved: where it did not, no byte would be taken.
pub fn taken_front(v: u8x16, p: u8, q: u8) -> usize
    ensures within { result ≤ 16 }
    ensures taken { taking p q false 0 (take result v) ≡ Some result }
{
    let slashes = equal_to(v, b'\\');
    let escaped = behind(slashes);
    if escaped != (slashes & !escaped) << 1 {
        return 0;
    }
    let ends = (stops(v, p, q) & !escaped) | (escaped & !escapables(v));
    before_escape(escaped, lowest(ends, 16))
}

// How many bytes at the front are none of p, q and x.
pub fn free_front(v: u8x16, p: u8, q: u8, x: u8) -> usize
    ensures { result ≡ free_front_of p q x v }
{
    lowest(equal_to(v, p) | equal_to(v, q) | equal_to(v, x), 16)
}
