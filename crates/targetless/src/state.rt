// What the runs find from a place on.
ghost use Rattle.std.specs.Prelude.{◌≡◌, ◌+◌, ◌^◌, ◌<◌, ℕ, List};
ghost use Rattle.targetless.specs.Indents.{Rising};
ghost use Rattle.targetless.specs.Verdict.{Tells};
ghost use Rattle.targetless.specs.Runs.{more, ended, no_label, StateTells, ended_of, paired_of};
ghost use Rattle.targetless.specs.Walk.{over_line};

use crate::indents::Indents;
use crate::verdict::Verdict;
use restructured_text::label::Label;

// A label of so many bytes, and of no fewer, is too long.
const TOO_LONG: usize = Label::LABEL_LEN_MAX + 1;

// How many bytes a label has up to the backtick that closes it: `kept`, less the bytes of the indent and three spaces `ends` times.
#[derive(Clone, Copy)]
pub struct Size {
    pub kept: usize,
    pub ends: usize,
}

impl Size {
    pub const NONE: Size = Size { kept: 0, ends: 0 };

    // With n bytes more in front.
    pub fn longer(self, n: usize) -> Size
        requires { self.kept + n < 2 ^ 64 }
        ensures { result ≡ more self n }
    {
        Size {
            kept: self.kept + n,
            ..self
        }
    }
}

// The verdicts at a place: that a destination is refused; that behind a backtick no label is closed, or it is refused; that a plain name does
// not end, or has a target that is refused; the same of a name behind a backtick; that this one is closed; that a target is refused. And the size
// of a label that goes on here.
#[derive(Clone, Copy)]
pub struct State {
    pub destination: Verdict,
    pub label: Verdict,
    pub plain: Verdict,
    pub quoted: Verdict,
    pub closed: Verdict,
    pub target: Verdict,
    pub size: Size,
}

impl State {
    // Where no further line can follow: at the text's end, and at the end of a line before one that is refused.
    pub const LAST: State = State {
        destination: Verdict::FURTHER,
        label: Verdict::EVERYTHING,
        plain: Verdict::EVERYTHING,
        quoted: Verdict::EVERYTHING,
        closed: Verdict::FURTHER,
        target: Verdict::FURTHER,
        size: Size::NONE,
    };

    // At a backslash that refuses what it stands in.
    pub const WRONG: State = State {
        destination: Verdict::EVERYTHING,
        label: Verdict::EVERYTHING,
        plain: Verdict::EVERYTHING,
        quoted: Verdict::EVERYTHING,
        closed: Verdict::NOTHING,
        target: Verdict::EVERYTHING,
        size: Size::NONE,
    };

    // At a line's end, by the state at the next line's start; `shared` blanks there stand at the front of the line behind it too.
    pub fn over(self, shared: usize, indents: &Indents) -> State
        requires kept { self.size.kept + 1 < 2 ^ 64 }
        requires ends { self.size.ends + 1 < 2 ^ 64 }
        ensures { result ≡ over_line indents.now.ranks self shared (ended self.size) }
    {
        let destination = self.destination.over(false, shared, indents);
        State {
            destination,
            label: self.label.over(true, shared, indents),
            plain: self.plain.over(true, shared, indents),
            quoted: self.quoted.over(true, shared, indents),
            closed: self.closed.over(false, shared, indents),
            target: destination,
            size: Size {
                kept: self.size.kept + 1,
                ends: self.size.ends + 1,
            },
        }
    }

    // At a backslash before a line's end: a space follows it in the text, or nothing.
    pub fn ended(self) -> State
        requires { self.size.kept + 1 < 2 ^ 64 }
        ensures { result ≡ ended_of self (more self.size 1) }
    {
        let destination = self.destination.with_lone(true);
        State {
            destination,
            label: self.label.with_lone(true),
            plain: self.plain.with_lone(true),
            quoted: self.quoted.with_lone(true),
            closed: self.closed.with_lone(false),
            target: destination,
            size: self.size.longer(1),
        }
    }

    // At a backslash before a byte that it may stand before in names, and in destinations if `everywhere`: by the state behind both.
    pub fn paired(self, everywhere: bool) -> State
        requires { self.size.kept + 2 < 2 ^ 64 }
        ensures { result ≡ paired_of self everywhere (more self.size 2) }
    {
        let names = State {
            size: self.size.longer(2),
            ..self
        };
        if everywhere {
            State {
                target: self.destination,
                ..names
            }
        } else {
            State {
                destination: Verdict::EVERYTHING,
                label: Verdict::EVERYTHING,
                target: Verdict::EVERYTHING,
                ..names
            }
        }
    }

    // Whether no label stands behind a backtick: none is closed, or it is refused, or it is too long.
    #[inline(never)]
    pub fn no_label(self, indents: &Indents) -> Verdict
        requires { Rising indents.now.ranks }
        ensures { (s : List ℕ) → StateTells indents.now.ranks self s → Tells indents.now.ranks no_label result s }
    {
        let size = self.size;
        if size.kept < TOO_LONG {
            return self.label;
        }
        if size.ends == 0 {
            return Verdict::EVERYTHING;
        }
        let long = Verdict::up_to((size.kept - TOO_LONG) / size.ends, indents);
        self.label | long.with_lone(false)
    }
}
