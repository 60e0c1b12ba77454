// `rst_parse_text2target`: a text with a label or a destination in angle brackets, all in backticks.
ghost use Rattle.std.specs.Prelude.{◌≡◌};
ghost use Rattle.restructured_text.specs.Text2target.{target_of, inside_of, text2target_of};

use crate::delimited::{backticked, closing, delimited, ends_with};
use crate::{Span, Spans};
use rst_bytes::escaped::escaped;
use rst_bytes::tag::tag;
use rst_bytes::trim::trim_end;

// How much of a target counts: a label must end in '_', which is dropped; a destination must not.
#[tactic(auto, using(crate::proofs::Bounds::bounds), unfolding(crate::specs::Text2target::target_of))]
fn target_len(s: &[u8], label: bool) -> Option<usize>
    ensures { result ≡ target_of label s.now }
{
    match (ends_with(s, b"_"), label) {
        (true, true) => Some(s.len() - 1),
        (false, false) => Some(s.len()),
        _ => None,
    }
}

// What stands between the backticks: the text, trimmed, and the target in angle brackets, with nothing after it.
#[tactic(auto, using(crate::proofs::Bounds::bounds), unfolding(crate::specs::Text2target::inside_of))]
fn inside(s: &[u8], label: bool) -> Option<Spans>
    ensures { result ≡ inside_of label s.now }
{
    let m = escaped(s, b'<', b'<')?;
    let text = trim_end(&s[..m]);
    let rest = &s[m..];
    let k = delimited(rest, b"<", b'<', b'>', b">")?;
    if k + 2 != rest.len() {
        return None;
    }
    let n = target_len(&rest[1..k + 1], label)?;
    let len = text.len();
    Some((
        Span { start: 0, len },
        Span {
            start: m + 1,
            len: n,
        },
        s.len(),
    ))
}

// The anonymous or the named form, with a label or a destination.
#[tactic(auto, using(crate::proofs::Bounds::bounds), unfolding(crate::specs::Text2target::text2target_of))]
pub fn rst_parse_text2target(s: &[u8], anonym: bool, label: bool) -> Option<Spans>
    ensures { result ≡ text2target_of anonym label s.now }
{
    let n = backticked(s, anonym)?;
    let e = n + 1;
    let end = e + closing(anonym).len();
    if tag(&s[end..], b"_") {
        return None;
    }
    let (text, target, _) = inside(&s[1..e], label)?;
    let a = Span {
        start: text.start + 1,
        ..text
    };
    let b = Span {
        start: target.start + 1,
        ..target
    };
    Some((a, b, end))
}
