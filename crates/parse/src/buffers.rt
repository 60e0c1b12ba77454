// What the single-link call checks of its place, and how it hands the strings over.
ghost use Rattle.std.specs.Prelude.{◌≡◌, ◌+◌, ◌≤◌, length};
ghost use Rattle.restructured_text.specs.Strings.{part};
ghost use Rattle.parse.specs.Link.{link_of};
ghost use Rattle.parse.specs.Single.{is_place, handed, outcome_of, Fronts};
ghost use Rattle.parse.specs.Inner.{with_parts, LinkWithin, HandsOver, HandedFronts};

use crate::{Link, Refusal};
use restructured_text::Span;
use rst_bytes::copy::copy;
use rst_bytes::domain::char_at;

// Whether a place is not past the document and not inside a character.
pub fn is_place(document: &[u8], place: usize) -> bool
    ensures { result ≡ is_place place document.now }
{
    place == document.len() || char_at(document, place).is_some()
}

// The strings that a and b name in the scratch, written to the front of the two buffers, if both fit.
fn write_both(
    a: Span,
    b: Span,
    scratch: &[u8],
    first: &mut [u8],
    second: &mut [u8],
) -> Result<(Span, Span), Refusal>
    requires { (a.start + a.len ≤ length scratch.now) × (b.start + b.len ≤ length scratch.now) }
    ensures outcome { HandsOver result first.new second.new first.old second.old (part a scratch.now) (part b scratch.now) }
    ensures fronts { HandedFronts result }
{
    if first.len() < a.len {
        return Err(Refusal::OutputLen(a.len));
    }
    if second.len() < b.len {
        return Err(Refusal::OutputLen(b.len));
    }
    copy(a.of(scratch), first);
    copy(b.of(scratch), second);
    Ok((Span { start: 0, ..a }, Span { start: 0, ..b }))
}

// The link with its strings at other places.
fn with_parts(x: Link, a: Span, b: Span) -> Link
    ensures { result ≡ with_parts a b x }
{
    match x {
        Link::Text2Dest(_, _, m, n) => Link::Text2Dest(a, b, m, n),
        Link::TextLabel2Dest(_, _, m, n) => Link::TextLabel2Dest(a, b, m, n),
        Link::Text2Label(_, _, m, n) => Link::Text2Label(a, b, m, n),
        Link::Label2Dest(_, _, m, n) => Link::Label2Dest(a, b, m, n),
        Link::Label2Label(_, _, m, n) => Link::Label2Label(a, b, m, n),
    }
}

// The answer for a link whose strings stand in the scratch.
pub fn hand_over(
    x: Link,
    scratch: &[u8],
    first: &mut [u8],
    second: &mut [u8],
) -> Result<Link, Refusal>
    requires { LinkWithin (length scratch.now) x }
    ensures outcome { outcome_of result first.new second.new ≡ handed first.old second.old (link_of x scratch.now) }
    ensures fronts { Fronts result }
{
    let (a, b, _, _) = x.parts();
    let (f, g) = write_both(a, b, scratch, first, second)?;
    Ok(with_parts(x, f, g))
}
