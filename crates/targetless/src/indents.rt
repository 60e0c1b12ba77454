// The indents that verdicts tell of. A verdict has 127 bits for them, and a text may have blocks of any indent up to its length: so the bits
// stand for the indents that blocks of this text may have, the shortest first.
ghost use Rattle.std.specs.Prelude.{◌≡◌, ◌+◌, ◌≤◌, length};
ghost use Rattle.targetless.specs.Indents.{Rising, is_listed, rank_of, within_of};

use rst_bytes::line::is_space;
use std::simd::prelude::*;

// For each length up to the longest one, how many of the listed indents are shorter.
#[derive(Drop)]
pub struct Indents {
    ranks: [u8; Indents::LONGEST + 1],
}

impl Indents {
    // Longer ones are not listed: of blocks so deep a document has room for few.
    const LONGEST: usize = 1024;

    // How many may be listed.
    const MOST: u8 = 127;

    // None is listed.
    pub const NONE: Indents = Indents {
        ranks: [0; Indents::LONGEST + 1],
    };

    // Lists those of the blocks that may begin in s.
    pub fn list(&mut self, s: &[u8])
        ensures { Rising self.new.ranks }
    {
        note(s, &mut self.ranks);
        let mut shorter = 0;
        for k in 0..self.ranks.len() {
            let noted = self.ranks[k];
            self.ranks[k] = shorter;
            if noted == 1 && shorter < Indents::MOST {
                shorter += 1;
            }
        }
    }

    // Whether an indent of k bytes is listed.
    #[tactic(auto, unfolding(crate::specs::Indents::is_listed))]
    pub fn lists(&self, k: usize) -> bool
        ensures { result ≡ is_listed self.now.ranks k }
    {
        if Indents::LONGEST <= k {
            return false;
        }
        let rank = self.rank(k);
        rank < Indents::MOST && rank < self.rank(k + 1)
    }

    // How many of those that are listed are shorter than k bytes.
    #[tactic(auto, unfolding(crate::specs::Indents::rank_of))]
    pub fn rank(&self, k: usize) -> u8
        ensures { result ≡ rank_of self.now.ranks k }
    {
        self.ranks[k.min(Indents::LONGEST)]
    }

    // How many have at most m bytes with three spaces.
    pub fn within(&self, m: usize) -> u8
        ensures { result ≡ within_of self.now.ranks m }
    {
        self.rank(m.saturating_sub(2))
    }
}

// Puts 1 at the place of the indent that `before` ends with.
fn note_one(before: &[u8], indents: &mut [u8]) {
    let blanks = before.iter().rev().take_while(|b| is_space(**b)).count();
    if blanks < indents.len() {
        indents[blanks] = 1;
    }
}

// Which of 32 bytes from place i on are b.
fn lanes(s: &[u8], i: usize, b: u8) -> Mask<i8, 32>
    requires { i + 32 ≤ length s.now }
{
    u8x32::from_slice(&s[i..]).simd_eq(u8x32::splat(b))
}

// At which of 32 places from place i on a header starts: `.. _` or `__ `.
fn headers(s: &[u8], i: usize) -> u64
    requires { i + 35 ≤ length s.now }
{
    let named = lanes(s, i, b'.')
        & lanes(s, i + 1, b'.')
        & lanes(s, i + 2, b' ')
        & lanes(s, i + 3, b'_');
    let anonymous = lanes(s, i, b'_') & lanes(s, i + 1, b'_') & lanes(s, i + 2, b' ');
    (named | anonymous).to_bitmask()
}

// The same for the headers that start at one of 32 places from place i on.
fn note_many(s: &[u8], i: usize, indents: &mut [u8])
    requires { i + 35 ≤ length s.now }
{
    let starts = headers(s, i);
    if starts == 0 {
        return;
    }
    for k in 0..32 {
        if (starts >> k) & 1 == 1 {
            note_one(&s[..i + k], indents);
        }
    }
}

// The same for each header of s. Headers are sought at 32 places at a time, since a text has few.
fn note(s: &[u8], indents: &mut [u8]) {
    let mut i = 0;
    while i + 35 <= s.len() {
        note_many(s, i, indents);
        i += 32;
    }
    for k in i..s.len() {
        if matches!(
            &s[k..],
            [b'.', b'.', b' ', b'_', ..] | [b'_', b'_', b' ', ..]
        ) {
            note_one(&s[..k], indents);
        }
    }
}
