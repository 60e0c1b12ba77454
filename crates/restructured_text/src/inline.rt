// The inline forms with their strings: embedded links, anonymous and named, and references by label.
ghost use Rattle.std.specs.Prelude.{◌≡◌};
ghost use Rattle.restructured_text.specs.Strings.{lent, strings_of, Ends};
ghost use Rattle.restructured_text.specs.Inline.{embedded_of, text2dest_of, text_label2dest_of, text2label_of};

use crate::label::rst_parse_text2label;
use crate::scratch::{shared, transformed};
use crate::text2target::rst_parse_text2target;
use crate::{ParseError, Spans};
use rst_bytes::copy::copy;

// A text with its destination, anonymous or named.
#[tactic(auto, using(crate::proofs::Bounds::bounds))]
fn embedded(s: &[u8], scratch: &mut [u8], anonym: bool) -> Result<Spans, ParseError>
    ensures strings { strings_of result scratch.new ≡ lent s.now scratch.old (embedded_of anonym s.now) }
    ensures ends { Ends result }
{
    if scratch.len() < s.len() {
        return Err(ParseError::NoRoom);
    }
    let (text, target, n) = rst_parse_text2target(s, anonym, false).ok_or(ParseError::NotFound)?;
    copy(&s[..n], scratch);
    transformed(scratch, text, target, true, n)
}

// An anonymous embedded link: its text and its destination.
#[tactic(auto, unfolding(crate::specs::Inline::text2dest_of))]
pub fn rst_text2dest(s: &[u8], scratch: &mut [u8]) -> Result<Spans, ParseError>
    ensures strings { strings_of result scratch.new ≡ lent s.now scratch.old (text2dest_of s.now) }
    ensures ends { Ends result }
{
    embedded(s, scratch, true)
}

// A named embedded link: its text and its destination.
#[tactic(auto, unfolding(crate::specs::Inline::text_label2dest_of))]
pub fn rst_text_label2dest(s: &[u8], scratch: &mut [u8]) -> Result<Spans, ParseError>
    ensures strings { strings_of result scratch.new ≡ lent s.now scratch.old (text_label2dest_of s.now) }
    ensures ends { Ends result }
{
    embedded(s, scratch, false)
}

// A reference: its text and its label. Not one function with `embedded`: a label may be the text itself, a destination never, and one
// function would have to ask for that.
#[tactic(auto, using(crate::proofs::Bounds::bounds), unfolding(crate::specs::Inline::text2label_of))]
pub fn rst_text2label(s: &[u8], scratch: &mut [u8]) -> Result<Spans, ParseError>
    ensures strings { strings_of result scratch.new ≡ lent s.now scratch.old (text2label_of s.now) }
    ensures ends { Ends result }
{
    if scratch.len() < s.len() {
        return Err(ParseError::NoRoom);
    }
    let (text, label, n) = rst_parse_text2label(s).ok_or(ParseError::NotFound)?;
    copy(&s[..n], scratch);
    if text.start + text.len <= label.start {
        transformed(scratch, text, label, false, n)
    } else {
        shared(scratch, text, n)
    }
}
