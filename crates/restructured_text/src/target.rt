// Targets: a block that gives a name a destination, or makes it an alias of another name.
ghost use Rattle.std.specs.Prelude.{◌≡◌, true, false, ◌≤◌, ◌<◌, length, take};
ghost use Rattle.restructured_text.specs.Inner.{is_refused};
ghost use Rattle.restructured_text.specs.Transform.{kept_of};
ghost use Rattle.restructured_text.specs.Strings.{lent, strings_of, Ends};
ghost use Rattle.restructured_text.specs.Target.{
  plain_name_of,
  name_of,
  rest_of,
  parse_label2target_of,
  named_of,
  anonymous_of,
  label2target_of,
  label2dest_of,
  label2label_of,
  starts_target,
};
ghost use Rattle.restructured_text.specs.Definition.{Defines, asked_of, told_as, raw_of, raw_span, is_alias};

use crate::block::rst_explicit_markup_block;
use crate::delimited::delimited;
use crate::label::rst_parse_simple_label;
use crate::scratch::transformed;
use crate::transform::{is_destination_escapable, rst_escaped_link_destination_transform};
use crate::{ParseError, Span, Spans};
use rst_bytes::free::free_front;
use rst_bytes::line::space0;
use rst_bytes::tag::tag;

// The raw target in what follows the name: the simple label at the front, which makes an alias, or all of it, a destination.
#[derive(Clone, Copy)]
pub enum Raw {
    Alias(Span),
    Destination(Span),
}

impl Raw {
    // The label, if there is one, else all of s.
    #[tactic(auto, unfolding(crate::specs::Definition::raw_of))]
    fn of(s: &[u8]) -> Raw
        ensures { result ≡ raw_of s.now }
    {
        match rst_parse_simple_label(s) {
            Some((label, _)) => Raw::Alias(label.into()),
            None => Raw::Destination(Span {
                start: 0,
                len: s.len(),
            }),
        }
    }

    // Where it stands.
    fn span(self) -> Span
        ensures { result ≡ raw_span self }
    {
        match self {
            Raw::Alias(span) | Raw::Destination(span) => span,
        }
    }

    // What it makes of the name and the target that were found.
    fn defines(self, found: Spans) -> Definition
        ensures { Ok result ≡ told_as (is_alias self) (Ok found) }
    {
        let (name, target, n) = found;
        match self {
            Raw::Alias(_) => Definition::Alias(name, target, n),
            Raw::Destination(_) => Definition::Destination(name, target, n),
        }
    }
}

// What a target block defines: its name and its target, where they stand in the scratch, and how many bytes of the input were
// consumed; one by one, as in the cases of `parse::Link`, which it becomes.
#[derive(Clone, Copy)]
pub enum Definition {
    Alias(Span, Span, usize),
    Destination(Span, Span, usize),
}

// A plain name, with its colon and one space; and how many bytes it takes with these.
#[tactic(auto, using(crate::proofs::Bounds::bounds), unfolding(crate::specs::Target::plain_name_of))]
fn plain_name(s: &[u8]) -> Option<(Span, usize)>
    ensures { result ≡ plain_name_of s.now }
{
    let colon = b": ";
    let len = delimited(s, b"_", b':', b':', colon)?;
    Some((Span { start: 1, len }, len + 1 + colon.len()))
}

// A name in backticks, else a plain one, each with its colon and one space.
#[tactic(auto, using(crate::proofs::Bounds::bounds), unfolding(crate::specs::Target::name_of))]
fn target_name(s: &[u8]) -> Option<(Span, usize)>
    ensures { result ≡ name_of s.now }
{
    let colon = b"`: ";
    match delimited(s, b"_`", b'`', b'`', colon) {
        Some(len) => Some((Span { start: 2, len }, len + 2 + colon.len())),
        None => plain_name(s),
    }
}

// The target: the simple label at the front, for an alias, or all of it, for a destination.
#[tactic(auto, unfolding(crate::specs::Target::rest_of))]
fn rest_target(s: &[u8], label: bool) -> Option<Span>
    ensures { result ≡ rest_of label s.now }
{
    if label {
        let (label, _) = rst_parse_simple_label(s)?;
        return Some(label.into());
    }
    Some(Span {
        start: 0,
        len: s.len(),
    })
}

// The name and the target in a block's text.
#[tactic(auto, using(crate::proofs::Bounds::bounds), unfolding(crate::specs::Target::parse_label2target_of))]
pub fn rst_parse_label2target(s: &[u8], label: bool) -> Option<Spans>
    ensures { result ≡ parse_label2target_of label s.now }
{
    let (name, k) = target_name(s)?;
    let t = rest_target(&s[k..], label)?;
    let target = Span {
        start: k + t.start,
        ..t
    };
    Some((name, target, s.len()))
}

// The text from its first backslash on.
#[tactic(auto, using(crate::proofs::TransformLaws::front_free))]
fn from_slash(d: &[u8]) -> &[u8]
    ensures len { length result.now ≤ length d.now }
    ensures same { is_refused (kept_of d.now) ≡ is_refused (kept_of result.now) }
{
    &d[free_front(d, b'\\', b'\\', b'\\')..]
}

// Whether a destination is refused: a wrong escape stands in it.
#[tactic(auto, using(crate::proofs::TransformLaws::fronts))]
fn is_wrong(d: &[u8]) -> bool
    ensures { result ≡ is_refused (kept_of d.now) }
{
    let mut rest = from_slash(d);
    // No `for`: an escape takes two bytes.
    loop {
        match rest {
            [] => return false,
            [b'\\', e, tail @ ..] if is_destination_escapable(*e) => rest = from_slash(tail),
            [b'\\', ..] => return true,
            [_, tail @ ..] => rest = tail,
        }
    }
}

// What a `.. ` block defines whose text is the first len bytes of d and which consumed n bytes.
#[tactic(auto, using(crate::proofs::Bounds::bounds))]
fn named_target(d: &mut [u8], len: usize, n: usize) -> Result<Definition, ParseError>
    requires { (len ≤ n) × (n ≤ length d.old) }
    ensures { Defines (named_of true (take len d.old) n) (named_of false (take len d.old) n) d.new result }
{
    let text = &d[..len];
    let (name, k) = target_name(text).ok_or(ParseError::NotFound)?;
    let raw = Raw::of(&text[k..]);
    let span = raw.span();
    let target = Span {
        start: k + span.start,
        ..span
    };
    if is_wrong(target.of(text)) {
        return Err(ParseError::NotFound);
    }
    let found = transformed(d, name, target, true, n)?;
    Ok(raw.defines(found))
}

// What a `__ ` block defines, likewise: its name, `_`, is put behind the text.
#[tactic(auto, using(crate::proofs::Bounds::bounds))]
fn anonymous_target(d: &mut [u8], len: usize, n: usize) -> Result<Definition, ParseError>
    requires { (len < n) × (n ≤ length d.old) }
    ensures { Defines (anonymous_of true (take len d.old) n) (anonymous_of false (take len d.old) n) d.new result }
{
    let raw = Raw::of(&d[..len]);
    let span = raw.span();
    if is_wrong(span.of(d)) {
        return Err(ParseError::NotFound);
    }
    let part = &mut d[span.start..span.start + span.len];
    let j = rst_escaped_link_destination_transform(part).ok_or(ParseError::NotFound)?;
    d[len] = b'_';
    let name = Span { start: len, len: 1 };
    let target = Span { len: j, ..span };
    Ok(raw.defines((name, target, n)))
}

// Whether a target may start: behind the indent `.. _`, or `__ `.
#[tactic(auto, using(crate::proofs::Bounds::bounds), unfolding(crate::specs::Target::starts_target))]
pub fn starts_target(s: &[u8]) -> bool
    ensures { result ≡ starts_target s.now }
{
    let t = &s[space0(s)..];
    tag(t, b".. _") || tag(t, b"__ ")
}

// What a block defines, whatever it starts with.
fn block_target(s: &[u8], scratch: &mut [u8]) -> Result<Definition, ParseError>
    ensures { Defines (lent s.now scratch.old (label2target_of true s.now)) (lent s.now scratch.old (label2target_of false s.now)) scratch.new result }
{
    match rst_explicit_markup_block(s, b".. ", scratch) {
        Ok((len, n)) => named_target(scratch, len, n),
        Err(ParseError::NotFound) => {
            let (len, n) = rst_explicit_markup_block(s, b"__ ", scratch)?;
            anonymous_target(scratch, len, n)
        }
        Err(ParseError::NoRoom) => Err(ParseError::NoRoom),
    }
}

// A target block with an alias or with a destination, which is read once. Nothing is read where no target may start.
#[tactic(auto, unfolding(crate::specs::Target::label2dest_of, crate::specs::Target::label2label_of))]
pub fn rst_target(s: &[u8], scratch: &mut [u8]) -> Result<Definition, ParseError>
    ensures { Defines (lent s.now scratch.old (label2label_of s.now)) (lent s.now scratch.old (label2dest_of s.now)) scratch.new result }
{
    if starts_target(s) {
        return block_target(s, scratch);
    }
    Err(if scratch.len() < s.len() {
        ParseError::NoRoom
    } else {
        ParseError::NotFound
    })
}

// What was asked for, an alias or a destination, if the block defines that.
fn asked(found: Result<Definition, ParseError>, label: bool) -> Result<Spans, ParseError>
    ensures { result ≡ asked_of label found }
{
    match found? {
        Definition::Alias(a, b, n) if label => Ok((a, b, n)),
        Definition::Destination(a, b, n) if !label => Ok((a, b, n)),
        _ => Err(ParseError::NotFound),
    }
}

// A target block with an alias, if `label`, or with a destination: its name and its target.
#[tactic(auto, unfolding(crate::specs::Target::label2dest_of, crate::specs::Target::label2label_of))]
pub fn rst_label2target(s: &[u8], scratch: &mut [u8], label: bool) -> Result<Spans, ParseError>
    ensures strings { strings_of result scratch.new ≡ lent s.now scratch.old (label2target_of label s.now) }
    ensures ends { Ends result }
{
    asked(rst_target(s, scratch), label)
}

// A block that gives a name a destination.
#[tactic(auto, unfolding(crate::specs::Target::label2dest_of))]
pub fn rst_label2dest(s: &[u8], scratch: &mut [u8]) -> Result<Spans, ParseError>
    ensures strings { strings_of result scratch.new ≡ lent s.now scratch.old (label2dest_of s.now) }
    ensures ends { Ends result }
{
    rst_label2target(s, scratch, false)
}

// A block that makes a name an alias of another.
#[tactic(auto, unfolding(crate::specs::Target::label2label_of))]
pub fn rst_label2label(s: &[u8], scratch: &mut [u8]) -> Result<Spans, ParseError>
    ensures strings { strings_of result scratch.new ≡ lent s.now scratch.old (label2label_of s.now) }
    ensures ends { Ends result }
{
    rst_label2target(s, scratch, true)
}
