// Simple labels, and references by label.
ghost use Rattle.std.specs.Prelude.{◌≡◌};
ghost use Rattle.restructured_text.specs.Label.{word_label_of, raw_label_of, simple_label_of, form_of, parse_text2label_of};

use crate::delimited::{backticked, ends_with};
use crate::text2target::rst_parse_text2target;
use crate::{Span, Spans};
use rst_bytes::tag::tag;
use rst_bytes::word::word_run;

// Where a simple label stands: a type of its own, as in the Rust, so that no other span passes for a label.
#[derive(Clone, Copy)]
pub struct Label {
    pub start: usize,
    pub len: usize,
}

impl Label {
    // The most bytes that a raw simple label has.
    pub const LABEL_LEN_MAX: usize = 999;
}

impl From<Label> for Span {
    ghost from_gives = { λ label span. span ≡ record { start = label.start; len = label.len } };

    fn from(label: Label) -> Span {
        Span {
            start: label.start,
            len: label.len,
        }
    }
}

// A maximal run of word characters that ends in '_': of two at its end both are dropped and one is left unread.
#[tactic(auto, using(crate::proofs::Bounds::bounds), unfolding(crate::specs::Label::word_label_of))]
fn take_word_consume_first_ending_underscore(s: &[u8]) -> Option<(Label, usize)>
    ensures { result ≡ word_label_of s.now }
{
    let w = word_run(s);
    let run = &s[..w];
    let (len, n) = if 3 <= w && ends_with(run, b"__") {
        (w - 2, w - 1)
    } else if ends_with(run, b"_") {
        (w - 1, w)
    } else {
        return None;
    };
    Some((Label { start: 0, len }, n))
}

// A backticked run, else a word, of any length.
#[tactic(auto, using(crate::proofs::Bounds::bounds), unfolding(crate::specs::Label::raw_label_of))]
fn raw_label(s: &[u8]) -> Option<(Label, usize)>
    ensures { result ≡ raw_label_of s.now }
{
    match backticked(s, false) {
        Some(n) => Some((Label { start: 1, len: n }, n + 3)),
        None => take_word_consume_first_ending_underscore(s),
    }
}

// A simple label: not empty and no longer than the limit.
#[tactic(auto, using(crate::proofs::Bounds::bounds), unfolding(crate::specs::Label::simple_label_of))]
pub fn rst_parse_simple_label(s: &[u8]) -> Option<(Label, usize)>
    ensures { result ≡ simple_label_of s.now }
{
    let (label, n) = raw_label(s)?;
    if label.len == 0 || Label::LABEL_LEN_MAX < label.len {
        return None;
    }
    Some((label, n))
}

// The label form of text2target, else a simple label as both text and label.
#[tactic(auto, using(crate::proofs::Bounds::bounds), unfolding(crate::specs::Label::form_of))]
fn label_form(s: &[u8]) -> Option<Spans>
    ensures { result ≡ form_of s.now }
{
    if let Some(found) = rst_parse_text2target(s, false, true) {
        return Some(found);
    }
    let (label, n) = rst_parse_simple_label(s)?;
    let span = Span::from(label);
    Some((span, span, n))
}

// The same; a '_' still following is consumed and is the label.
#[tactic(auto, using(crate::proofs::Bounds::bounds), unfolding(crate::specs::Label::parse_text2label_of))]
pub fn rst_parse_text2label(s: &[u8]) -> Option<Spans>
    ensures { result ≡ parse_text2label_of s.now }
{
    let (text, label, n) = label_form(s)?;
    if tag(&s[n..], b"_") {
        return Some((text, Span { start: n, len: 1 }, n + 1));
    }
    Some((text, label, n))
}
