// A place of a text, and the marks of the text.
ghost use Rattle.std.specs.Prelude.{◌≡◌, true, false, ◌+◌, ◌≤◌, ◌<◌, length, drop, get_or};
ghost use Rattle.std.proofs.Props.{props};
ghost use Rattle.parse.specs.Inner.{NoBlock, Barred};

use restructured_text::target::starts_target;

// A place of a text, or its end. At places that are marked no block begins. The scratch that goes with it is no field: a ghost field beside
// a `&mut` is not covered (NOT_COVERED.md of the language's guides).
#[derive(Clone, Copy)]
pub struct Place<'a> {
    pub text: &'a [u8],
    pub marks: &'a [u8],
    pub at: usize,
    ghost inside: { at ≤ length text.now },
    ghost barred: { Barred marks.now text.now } by { Prim.hlevel props },
}

impl<'a> Place<'a> {
    // What stands there and behind it.
    pub fn rest(self) -> &'a [u8]
        ensures { result.now ≡ drop self.entry.at self.entry.text.now }
    {
        &self.text[self.at..]
    }

    // The byte that stands there.
    pub fn byte(self) -> u8
        requires { self.at < length self.text.now }
        ensures { result ≡ get_or self.entry.text.now self.entry.at 0 }
    {
        self.text[self.at]
    }

    // What stands n bytes further on.
    pub fn further(self, n: usize) -> &'a [u8]
        requires { self.at + n ≤ length self.text.now }
        ensures { result.now ≡ drop (self.entry.at + n) self.entry.text.now }
    {
        &self.text[self.at + n..]
    }

    // Whether the place n bytes further on is marked.
    fn is_marked(self, n: usize) -> bool
        requires { self.at + n ≤ length self.text.now }
        ensures { result ≡ true → get_or self.entry.marks.now (self.entry.at + n) 0 ≡ 1 }
    {
        self.marks.get(self.at + n) == Some(&1)
    }

    // Whether a block is to be read n bytes further on: what starts a target stands there, and it is not marked that none begins.
    pub fn may_begin(self, n: usize) -> bool
        requires { self.at + n ≤ length self.text.now }
        ensures { result ≡ false → NoBlock (drop (self.entry.at + n) self.entry.text.now) }
    {
        starts_target(self.further(n)) && !self.is_marked(n)
    }
}
