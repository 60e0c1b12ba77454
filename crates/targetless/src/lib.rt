// Places at which no target starts: for the caller of the parsers, who tries a target at many places of a text.
//
// Whether a block's text is a target is found by runs over it: to the colon of a name, to a backtick, to a wrong escape. From one place to the
// next a run goes on alike, and so it does from the end of a line to the next one, but for where the block ends, which its indent says. So the
// text is gone through once, from its end to its front, and at each place it is kept for which indents a run finds what it looks for.
#![tactic(auto)]

mod candidate;
mod indents;
mod runs;
mod state;
mod verdict;
mod walk;

ghost use Rattle.targetless.specs.Targetless.{Marks};

use crate::indents::Indents;
use crate::walk::Walk;

// Marks places of s at which no target starts with 1, and others with 0; where the marks are fewer than the bytes of s, all with 0.
#[inline(never)]
pub fn mark(s: &[u8], marks: &mut [u8])
    ensures { Marks marks.new s.now }
{
    marks.fill(0);
    if marks.len() < s.len() {
        return;
    }
    let mut indents = Indents::NONE;
    indents.list(s);
    let mut walk = Walk::end(&indents);
    for i in (0..s.len()).rev() {
        if let Some(k) = walk.free_before(&s[..=i], &s[i + 1..]) {
            marks[k] = 1;
        }
        let spaced = matches!(&s[..i], [.., b':' | b'_' | b' ', b' ']);
        walk.step(&s[i..], spaced);
    }
}
