// Verdicts, and what is made of them.
ghost use Rattle.std.specs.Prelude.{◌≡◌, ◌<◌};
ghost use Rattle.targetless.specs.Verdict.{
  bit_at,
  both_of,
  either_of,
  not_of,
  ones_of,
  up_to_of,
  lone_of,
  is_lone,
  over_of,
  judged_in,
};

use crate::indents::Indents;
use std::ops::{BitAnd, BitOr, Not};

// What is told of the texts that stand from a place on, for each indent that their block may have: where no further line follows the line,
// it is so if bit 0 is 1; where one does, for an indent that is listed, if bit k + 1 is 1, where k listed ones are shorter. Of others nothing is told
// there.
#[derive(Clone, Copy)]
pub struct Verdict {
    pub bits: u128,
}

impl Verdict {
    // It is so for each indent.
    pub const EVERYTHING: Verdict = Verdict { bits: u128::MAX };

    // The same where a further line follows.
    pub const FURTHER: Verdict = Verdict {
        bits: u128::MAX - 1,
    };

    // Nothing is told.
    pub const NOTHING: Verdict = Verdict { bits: 0 };

    // It is so for the indents that have at most m bytes with three spaces.
    pub fn up_to(m: usize, indents: &Indents) -> Verdict
        ensures { result ≡ up_to_of indents.now.ranks m }
    {
        Verdict {
            bits: ones(usize::from(indents.within(m)) + 1),
        }
    }

    // The same where a further line follows, and `lone` where none does.
    pub fn with_lone(self, lone: bool) -> Verdict
        ensures { result ≡ lone_of self lone }
    {
        let bits = if lone { self.bits | 1 } else { self.bits & !1 };
        Verdict { bits }
    }

    // At a line's end, by what is told of the next line; `shared` blanks at its front stand at the front of the line behind it too.
    pub fn over(self, lone: bool, shared: usize, indents: &Indents) -> Verdict
        ensures { result ≡ over_of indents.now.ranks self lone shared }
    {
        let within = Verdict::up_to(shared, indents);
        let all = if self.is_lone() {
            self | !within
        } else {
            self & within
        };
        all.with_lone(lone)
    }

    // What a verdict says for an indent of k bytes where a further line follows, or where none does.
    pub fn judged(self, indent: Option<usize>, indents: &Indents) -> bool
        ensures { result ≡ judged_in indents.now.ranks self indent }
    {
        match indent {
            None => self.is_lone(),
            Some(k) => indents.lists(k) && bit(self.bits, usize::from(indents.rank(k)) + 1),
        }
    }

    // What it says where no further line follows.
    fn is_lone(self) -> bool
        ensures { result ≡ is_lone self }
    {
        self.bits & 1 == 1
    }
}

// What both verdicts say.
impl BitAnd for Verdict {
    type Output = Verdict;

    ghost bitand_gives = { λ a b r. r ≡ both_of a b };

    fn bitand(self, other: Verdict) -> Verdict {
        Verdict {
            bits: self.bits & other.bits,
        }
    }
}

// What one verdict says or the other.
impl BitOr for Verdict {
    type Output = Verdict;

    ghost bitor_gives = { λ a b r. r ≡ either_of a b };

    fn bitor(self, other: Verdict) -> Verdict {
        Verdict {
            bits: self.bits | other.bits,
        }
    }
}

// For the other indents.
impl Not for Verdict {
    type Output = Verdict;

    ghost not_gives = { λ a r. r ≡ not_of a };

    fn not(self) -> Verdict {
        Verdict { bits: !self.bits }
    }
}

// Whether bit k is 1.
fn bit(x: u128, k: usize) -> bool
    requires { k < 128 }
    ensures { result ≡ bit_at x k }
{
    (x >> k) & 1 == 1
}

// The lowest n bits, or all.
fn ones(n: usize) -> u128
    ensures { result ≡ ones_of n }
{
    if n < 128 { (1 << n) - 1 } else { u128::MAX }
}
