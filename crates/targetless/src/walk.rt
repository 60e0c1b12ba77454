// What is kept at a place while the text is gone through from its end to its front, over the ends of lines too.
ghost use Rattle.std.specs.Prelude.{◌≡◌, [], ◌∷◌, false, slice_index, drop};
ghost use Rattle.rst_bytes.specs.Line.{is_space, space0_of};
ghost use Rattle.targetless.specs.Indents.{Rising};
ghost use Rattle.targetless.specs.Verdict.{ends_line, Shared};
ghost use Rattle.targetless.specs.Walk.{stop_of, Walked};

use crate::indents::Indents;
use crate::state::State;
use crate::verdict::Verdict;
use rst_bytes::line::{is_space, space0};

// The states at a place and at the next one; at a line's end, whether a colon before it ends no name, or the target on the next line is refused;
// whether a target behind the blanks at this place is refused; and how many bytes the text has from the line behind this one on, which is the empty
// text if there is no such line or it is refused. If this line itself is refused, `next` is `None`. And the indents that the verdicts tell of.
//
// The text behind the place is handed over beside this. As a field, with a ghost field for `Walked`, it would have to be the end of what `step` is
// handed, which is as much to ask; and each step would build all fields anew, since `..self` is refused with ghost fields.
#[derive(Clone, Copy)]
pub struct Walk<'a> {
    pub indents: &'a Indents,
    pub near: State,
    pub far: State,
    pub stop: Verdict,
    pub front: Verdict,
    pub next: Option<usize>,
}

impl<'a> Walk<'a> {
    // At the text's end.
    pub fn end(indents: &'a Indents) -> Walk<'a>
        requires { Rising indents.now.ranks }
        ensures { Walked result [] }
    {
        Walk {
            indents,
            near: State::LAST,
            far: State::LAST,
            stop: Verdict::NOTHING,
            front: Verdict::NOTHING,
            next: Some(0),
        }
    }

    // One byte to the front, to the place from which v is the text; `spaced` where a space stands before it.
    pub fn step(&mut self, v: &[u8], spaced: bool)
        requires { Walked self.old (drop 1 v.now) }
        ensures { Walked self.new v.now }
    {
        let [b, rest @ ..] = v else {
            return;
        };
        match b {
            b'\n' => self.at_lf(rest),
            b'\r' => self.at_cr(rest),
            b'`' | b':' | b'\\' => self.at_stop(v, spaced),
            _ => {
                let target = self.target_at(v, spaced);
                self.far = self.near;
                self.near.target = target;
                self.near.size = self.near.size.longer(1);
                self.stop = Verdict::NOTHING;
                if !is_space(*b) {
                    self.front = target;
                }
            }
        }
    }

    // At a byte of a line at which a run may stop.
    #[inline(never)]
    fn at_stop(&mut self, v: &[u8], spaced: bool)
        requires line { ends_line (slice_index v.now 0) ≡ false }
        requires solid { is_space (slice_index v.now 0) ≡ false }
        requires walked { Walked self.old (drop 1 v.now) }
        ensures { Walked self.new v.now }
    {
        let [b, rest @ ..] = v else {
            return;
        };
        let near = self.state_at(*b, rest, self.target_at(v, spaced));
        self.far = self.near;
        self.near = near;
        self.stop = Verdict::NOTHING;
        self.front = near.target;
    }

    // At LF.
    #[inline(never)]
    fn at_lf(&mut self, rest: &[u8])
        requires { Walked self.old rest.now }
        ensures { Walked self.new (10 ∷ rest.now) }
    {
        let Some(next) = self.next else {
            *self = Walk {
                indents: self.indents,
                near: State::LAST,
                far: self.near,
                stop: Verdict::EVERYTHING,
                front: Verdict::NOTHING,
                next: Some(0),
            };
            return;
        };
        let shared = shared_blanks(rest, &rest[rest.len() - next..]);
        let near = self.near.over(shared, self.indents);
        *self = Walk {
            indents: self.indents,
            near,
            far: self.near,
            stop: line_stop(rest, shared, near.destination, self.front, self.indents),
            front: near.target,
            next: Some(rest.len()),
        };
    }

    // At CR.
    #[inline(never)]
    fn at_cr(&mut self, rest: &[u8])
        requires { Walked self.old rest.now }
        ensures { Walked self.new (13 ∷ rest.now) }
    {
        self.far = self.near;
        if let [b'\n', ..] = rest {
            return;
        }
        self.stop = Verdict::NOTHING;
        self.front = Verdict::NOTHING;
        self.next = None;
    }
}

// How many blanks at the front of a stand at the front of b too.
fn shared_blanks(a: &[u8], b: &[u8]) -> usize
    ensures { Shared result a.now b.now }
{
    a.iter()
        .zip(b)
        .take_while(|(x, y)| x == y && is_space(**x))
        .count()
}

// At a line's end behind a colon, before the line at the front of `rest`: in the text a space and the next line stand there, so the name ends, and
// the target stands on that line. If blanks are left before it, it is a destination; else `front` tells of it. `shared` blanks stand at the front of
// the line behind too.
fn line_stop(
    rest: &[u8],
    shared: usize,
    destination: Verdict,
    front: Verdict,
    indents: &Indents,
) -> Verdict
    ensures { result ≡ stop_of indents.now.ranks (space0_of rest.now) shared destination front }
{
    let q = space0(rest);
    let told = if 3 <= q && !front.judged((q <= shared).then_some(q - 3), indents) {
        destination & Verdict::up_to(q - 1, indents)
    } else {
        destination
    };
    told.with_lone(true)
}
