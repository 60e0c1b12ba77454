// The parsers of reStructuredText links: transforms, inline forms, blocks, targets.
//
// The second layer (document 01, "`restructured_text.rs`"), over the promises of `rst_bytes`. A parser takes the part of the
// document that starts at its place, reads nothing else, asks nothing of its caller and always returns. Where it gives strings it
// is lent a scratch, in which they stand when it returns; its contract is an equation with a definition of specs/.
#![tactic(auto)]

pub mod block;
mod delimited;
pub mod inline;
pub mod label;
mod scratch;
pub mod target;
pub mod text2target;
pub mod transform;

ghost use Rattle.std.specs.Prelude.{◌≡◌, ◌+◌, ◌≤◌, length};
ghost use Rattle.restructured_text.specs.Strings.{part};

// Where some bytes stand.
#[derive(Clone, Copy)]
pub struct Span {
    pub start: usize,
    pub len: usize,
}

impl Span {
    // The bytes that stand there in s.
    pub fn of(self, s: &[u8]) -> &[u8]
        requires { self.start + self.len ≤ length s.now }
        ensures { result.now ≡ part self s.now }
    {
        &s[self.start..self.start + self.len]
    }
}

// Two spans, and how many bytes were consumed: of a parser's input, where its two raw parts stand; of its scratch, where its two strings do.
// That strings end within these bytes is a clause (`Ends`) and no ghost field: each place that makes spans, of raw parts too, would have to show it.
pub type Spans = (Span, Span, usize);

// Why a parser that is lent a scratch gives nothing: there is no such form; or the scratch is shorter than the input.
#[derive(Clone, Copy, PartialEq, Eq)]
pub enum ParseError {
    NotFound,
    NoRoom,
}
