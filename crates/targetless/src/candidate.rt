// Blocks that begin with `.. _` or `__ `, and whether they are no targets.
ghost use Rattle.std.specs.Prelude.{◌≡◌, ◌++◌, ◌∷◌, true, ◌<◌, ◌≤◌, length, drop, IfSome};
ghost use Rattle.rst_bytes.specs.Tag.{starts_with};
ghost use Rattle.restructured_text.specs.Block.{three};
ghost use Rattle.targetless.specs.Targetless.{NoTarget};
ghost use Rattle.targetless.specs.Verdict.{Blank, Flagged, OfText};
ghost use Rattle.targetless.specs.Runs.{Unnamed};
ghost use Rattle.targetless.specs.Walk.{Walked, header_of};

use crate::walk::Walk;
use rst_bytes::line::is_space;
use rst_bytes::tag::tag;

impl Walk<'_> {
    // A place at which no target starts, if such a block has its header at the end of `front`; `rest` is the text behind it.
    pub fn free_before(&self, front: &[u8], rest: &[u8]) -> Option<usize>
        requires { Walked self.now rest.now }
        ensures { IfSome result (λ k. (k < length front.now) × NoTarget (drop k (front.now ++ rest.now))) }
    {
        if !may_be_header(front) {
            return None;
        }
        match front {
            [before @ .., b'_', b'_', b' '] => self.free_at_header(before, false, rest),
            [before @ .., b'.', b'.', b' ', b'_'] => self.free_at_header(before, true, rest),
            _ => None,
        }
    }

    // The same of a header between both texts: `.. _` if it is `named`, else `__ `.
    fn free_at_header(&self, before: &[u8], named: bool, rest: &[u8]) -> Option<usize>
        requires { Walked self.now rest.now }
        ensures { IfSome result (λ k. (k ≤ length before.now) × NoTarget (drop k before.now ++ (header_of named ++ rest.now))) }
    {
        let k = blanks_at_end(before);
        let indent = &before[k..];
        let Some(next) = self.next else {
            return Some(k);
        };
        let on = goes_on(&rest[rest.len() - next..], indent);
        if named {
            self.is_unnamed(rest, on, indent).then_some(k)
        } else {
            self.near
                .target
                .judged(on.then_some(indent.len()), self.indents)
                .then_some(k)
        }
    }

    // Whether the text of a block with that indent, `_` and then `rest`, gives no name with a target; `on` where a further line follows. No
    // Option of the indent: what is asked of both hangs on the indent.
    fn is_unnamed(&self, rest: &[u8], on: bool, indent: &[u8]) -> bool
        requires walked { Walked self.now rest.now }
        requires blank { Blank indent.now }
        requires on { Flagged on indent.now rest.now }
        ensures { result ≡ true → OfText Unnamed indent.now (0x5F ∷ rest.now) }
    {
        let size = on.then_some(indent.len());
        let plain = self.near.plain.judged(size, self.indents);
        match rest {
            [b':', ..] => true,
            [b'`', ..] => self.far.quoted.judged(size, self.indents)
                && (plain || self.far.closed.judged(size, self.indents)),
            _ => plain,
        }
    }
}

// Whether a header may stand at the end of s: told of its last four bytes at once, since at most places none does.
fn may_be_header(s: &[u8]) -> bool {
    let Some(last) = s.last_chunk::<4>() else {
        return true;
    };
    let bytes = u32::from_be_bytes(*last);
    bytes == 0x2E2E_205F || bytes & 0xFF_FFFF == 0x5F_5F20
}

// Where the blanks at the end of s begin.
fn blanks_at_end(s: &[u8]) -> usize
    ensures within { result ≤ length s.now }
    ensures blank { Blank (drop result s.now) }
{
    s.iter().rposition(|b| !is_space(*b)).map_or(0, |k| k + 1)
}

// Whether a further line of a block with that indent stands at the front of s. By `tag`, as no pattern holds an indent. The parser of blocks asks
// this too, behind a line's end that it reads first (`block::line_start` of `restructured_text`): two tags, which a public function there would not make
// plainer.
fn goes_on(s: &[u8], indent: &[u8]) -> bool
    ensures { result ≡ starts_with (indent.now ++ three) s.now }
{
    tag(s, indent) && tag(&s[indent.len()..], b"   ")
}
