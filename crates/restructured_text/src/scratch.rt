// Raw parts that stand in a scratch, transformed where they stand.
ghost use Rattle.std.specs.Prelude.{◌≡◌, false, ◌+◌, ◌≤◌, length, take};
ghost use Rattle.restructured_text.specs.Transform.{answer_of, bytes_of, transform_of};
ghost use Rattle.restructured_text.specs.Strings.{linked, strings_of, Ends};

use crate::transform::{rst_escaped_link_destination_transform, rst_escaped_link_text_transform};
use crate::{ParseError, Span, Spans};

// The text transform or the destination transform. A bool, as in `transform_of`: a closure's clause would have to name what each leaves.
fn transform(d: &mut [u8], destination: bool) -> Option<usize>
    ensures answer { result ≡ answer_of (transform_of destination d.old) }
    ensures bytes { take (length (bytes_of (transform_of destination d.old))) d.new ≡ bytes_of (transform_of destination d.old) }
{
    if destination {
        rst_escaped_link_destination_transform(d)
    } else {
        rst_escaped_link_text_transform(d)
    }
}

// The two transforms of the raw parts that stand in d, the first before the second: each in its place. The parts one by one: the
// contract speaks of each.
pub fn transformed(
    d: &mut [u8],
    a: Span,
    b: Span,
    destination: bool,
    n: usize,
) -> Result<Spans, ParseError>
    requires { (a.start + a.len ≤ b.start) × (b.start + b.len ≤ n) × (n ≤ length d.old) }
    ensures strings { strings_of result d.new ≡ linked destination d.old a b n }
    ensures ends { Ends result }
{
    let i = transform(&mut d[a.start..a.start + a.len], false).ok_or(ParseError::NotFound)?;
    let j = transform(&mut d[b.start..b.start + b.len], destination).ok_or(ParseError::NotFound)?;
    Ok((Span { len: i, ..a }, Span { len: j, ..b }, n))
}

// One raw part that stands in d, as both strings.
pub fn shared(d: &mut [u8], a: Span, n: usize) -> Result<Spans, ParseError>
    requires { (a.start + a.len ≤ n) × (n ≤ length d.old) }
    ensures strings { strings_of result d.new ≡ linked false d.old a a n }
    ensures ends { Ends result }
{
    let len = transform(&mut d[a.start..a.start + a.len], false).ok_or(ParseError::NotFound)?;
    let span = Span { len, ..a };
    Ok((span, span, n))
}
