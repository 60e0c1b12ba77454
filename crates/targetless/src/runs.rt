// What the runs find from a place of a line on, by what they find from the next place and from the one behind it on.
ghost use Rattle.std.specs.Prelude.{◌≡◌, ◌∷◌, ℕ, List, false, slice_index, drop};
ghost use Rattle.targetless.specs.Verdict.{ends_line, Tells};
ghost use Rattle.targetless.specs.Runs.{
  word_labelled,
  is_dead,
  label_stop,
  plain_stop,
  quoted_stop,
  closed_stop,
  plain_run,
  StateTells,
};
ghost use Rattle.targetless.specs.Walk.{ranks_of, Walked};

use crate::state::{Size, State};
use crate::verdict::Verdict;
use crate::walk::Walk;
use restructured_text::label::Label;
use restructured_text::transform::is_destination_escapable;
use rst_bytes::escaped::is_escapable;
use rst_bytes::word::word_run;

impl Walk<'_> {
    // At a byte of a line, where `target` is told of a target that begins there.
    pub fn state_at(&self, b: u8, rest: &[u8], target: Verdict) -> State
        requires line { ends_line b ≡ false }
        requires walked { Walked self.now rest.now }
        requires target { Tells (ranks_of self.now) is_dead target (b ∷ rest.now) }
        ensures { StateTells (ranks_of self.now) result (b ∷ rest.now) }
    {
        let passed = State {
            target,
            size: self.near.size.longer(1),
            ..self.near
        };
        match b {
            b'`' => State {
                label: label_stop(rest),
                quoted: quoted_stop(rest, self.near.plain),
                closed: closed_stop(rest),
                size: Size::NONE,
                ..passed
            },
            b':' => State {
                plain: self.plain_stop(rest),
                ..passed
            },
            b'\\' => self.escaped(rest),
            _ => passed,
        }
    }

    // A target that begins at the first byte of v, which is one of a line: nothing is told where none begins, since no space stands before it, where a
    // word that is a label does, or an escape; at a backtick, what is told of a destination and of no label; else what is told of a destination.
    #[inline(always)]
    pub fn target_at(&self, v: &[u8], spaced: bool) -> Verdict
        requires line { ends_line (slice_index v.now 0) ≡ false }
        requires walked { Walked self.now (drop 1 v.now) }
        ensures { Tells (ranks_of self.now) is_dead result v.now }
    {
        let [b, rest @ ..] = v else {
            return Verdict::NOTHING;
        };
        let destination = self.near.destination;
        match b {
            b'\\' => Verdict::NOTHING,
            _ if !spaced => Verdict::NOTHING,
            b'`' => match rest {
                [b'`', ..] => destination,
                _ => destination & self.near.no_label(self.indents),
            },
            _ if is_word_label(v) => Verdict::NOTHING,
            _ => destination,
        }
    }

    // At a colon, whether it ends no name, or the target behind it is refused.
    fn plain_stop(&self, rest: &[u8]) -> Verdict
        requires { Walked self.now rest.now }
        ensures { Tells (ranks_of self.now) plain_stop result (0x3A ∷ rest.now) }
    {
        match rest {
            [b' ', ..] => self.far.target,
            [c, ..] if ends_line(*c) => self.stop,
            _ => Verdict::EVERYTHING,
        }
    }

    // At a backslash.
    fn escaped(&self, rest: &[u8]) -> State
        requires { Walked self.now rest.now }
        ensures { StateTells (ranks_of self.now) result (0x5C ∷ rest.now) }
    {
        match rest {
            [c, ..] if ends_line(*c) => self.near.ended(),
            [c, ..] if is_escapable(*c) => self.far.paired(is_destination_escapable(*c)),
            _ => State::WRONG,
        }
    }
}

// At a backtick, whether it closes no label.
fn label_stop(rest: &[u8]) -> Verdict
    ensures { (ranks : List ℕ) → Tells ranks label_stop result (0x60 ∷ rest.now) }
{
    match rest {
        [b'_', ..] => Verdict::NOTHING,
        _ => Verdict::EVERYTHING,
    }
}

// At a backtick, whether it closes no name, or the target behind is refused: `plain` is the next place's verdict on plain names.
fn quoted_stop(rest: &[u8], plain: Verdict) -> Verdict
    ensures { (ranks : List ℕ) → Tells ranks plain_run plain rest.now → Tells ranks quoted_stop result (0x60 ∷ rest.now) }
{
    match rest {
        [b':', ..] => plain,
        _ => Verdict::EVERYTHING,
    }
}

// At a backtick, whether it closes a name.
fn closed_stop(rest: &[u8]) -> Verdict
    ensures { (ranks : List ℕ) → Tells ranks closed_stop result (0x60 ∷ rest.now) }
{
    match rest {
        [b':', b' ', ..] => Verdict::EVERYTHING,
        _ => Verdict::NOTHING,
    }
}

// Whether v begins with a word that is a label. Behind the label one `_` stands, or two. Of a byte that is no backtick the parser of simple labels
// says the same, but it looks for a backtick first and makes the label: by it a call on blocks that are no targets, whose bar leaves nothing, took 6 to
// 12 in 100 instructions more.
#[inline(never)]
fn is_word_label(v: &[u8]) -> bool
    ensures { result ≡ word_labelled v.now }
{
    let w = word_run(v);
    if w < 2 {
        return false;
    }
    match (v[w - 2], v[w - 1]) {
        (b'_', b'_') => w <= Label::LABEL_LEN_MAX + 2,
        (_, b'_') => w <= Label::LABEL_LEN_MAX + 1,
        _ => false,
    }
}

// LF or CR.
fn ends_line(b: u8) -> bool
    ensures { result ≡ ends_line b }
{
    matches!(b, b'\n' | b'\r')
}
