// The parsers of `restructured_text` by number, and their answers in numbers.
//
// 1 to 8 give raw parts, which stand in the input; 9 to 17 give strings, which stand in the scratch. What a parser gives one of
// is the first, and the second is then empty.
ghost use Rattle.std.specs.Prelude.{◌≡◌, ◌<◌, ◌≤◌, ℕ, List};
ghost use Rattle.restructured_text.specs.Strings.{strings_of, lent};
ghost use Rattle.restructured_text.specs.Block.{block_in, lent_block};
ghost use Rattle.pieces.specs.Parsers.{without, one, both, of_spans, of_label, of_error, of_transformed, raw_of, block_said, strings_said, block_at, transformed_of, transformed_at, form_at};

use restructured_text::block::rst_explicit_markup_block;
use restructured_text::inline::{rst_text_label2dest, rst_text2dest, rst_text2label};
use restructured_text::label::{Label, rst_parse_simple_label, rst_parse_text2label};
use restructured_text::target::{rst_label2dest, rst_label2label, rst_parse_label2target};
use restructured_text::text2target::rst_parse_text2target;
use restructured_text::transform::{
    rst_escaped_link_destination_transform, rst_escaped_link_text_transform,
};
use restructured_text::{ParseError, Spans};
use rst_bytes::copy::copy;

// An answer: 1 found, 0 refused, 2 the scratch is too short; where the two parts or strings stand; how many bytes are consumed.
// What is not named is 0. Numbers, as C reads it.
#[repr(C)]
#[derive(Clone, Copy, Debug, Default, PartialEq, Eq)]
pub struct Parsed {
    pub accepted: usize,
    pub first: usize,
    pub first_len: usize,
    pub second: usize,
    pub second_len: usize,
    pub consumed: usize,
}

// An answer without strings.
fn without(accepted: usize) -> Parsed
    ensures { result ≡ without accepted }
{
    Parsed {
        accepted,
        ..Parsed::default()
    }
}

// One part or string.
fn one(first: usize, first_len: usize, consumed: usize) -> Parsed
    ensures { result ≡ one first first_len consumed }
{
    Parsed {
        accepted: 1,
        first,
        first_len,
        consumed,
        ..Parsed::default()
    }
}

impl From<Spans> for Parsed {
    ghost from_gives = { λ p r. r ≡ both p };

    fn from((a, b, n): Spans) -> Parsed {
        Parsed {
            accepted: 1,
            first: a.start,
            first_len: a.len,
            second: b.start,
            second_len: b.len,
            consumed: n,
        }
    }
}

impl From<ParseError> for Parsed {
    ghost from_gives = { λ e r. r ≡ of_error e };

    fn from(e: ParseError) -> Parsed {
        match e {
            ParseError::NotFound => without(0),
            ParseError::NoRoom => without(2),
        }
    }
}

impl From<Option<Spans>> for Parsed {
    ghost from_gives = { λ p r. r ≡ of_spans p };

    fn from(p: Option<Spans>) -> Parsed {
        match p {
            Some(found) => found.into(),
            None => without(0),
        }
    }
}

impl From<Option<(Label, usize)>> for Parsed {
    ghost from_gives = { λ p r. r ≡ of_label p };

    fn from(p: Option<(Label, usize)>) -> Parsed {
        match p {
            Some((label, n)) => one(label.start, label.len, n),
            None => without(0),
        }
    }
}

impl From<Result<Spans, ParseError>> for Parsed {
    ghost from_gives = { λ p r. (scratch : List ℕ) → strings_said r scratch ≡ strings_of p scratch };

    fn from(p: Result<Spans, ParseError>) -> Parsed {
        match p {
            Ok(found) => found.into(),
            Err(e) => e.into(),
        }
    }
}

impl From<Result<(usize, usize), ParseError>> for Parsed {
    ghost from_gives = { λ p r. (scratch : List ℕ) → block_said r scratch ≡ block_in p scratch };

    fn from(p: Result<(usize, usize), ParseError>) -> Parsed {
        match p {
            Ok((len, n)) => one(0, len, n),
            Err(e) => e.into(),
        }
    }
}

// What a transform of n bytes gives.
fn transformed(p: Option<usize>, n: usize) -> Result<(usize, usize), ParseError>
    ensures { result ≡ of_transformed p n }
{
    Ok((p.ok_or(ParseError::NotFound)?, n))
}

// A transform of a copy of the input. A bool, as in `transform_of`: a closure's clause would have to name what each transform leaves. Not
// `transform` of `scratch`, private below: a public one would be a promise for the tests alone.
fn transform(s: &[u8], scratch: &mut [u8], destination: bool) -> Result<(usize, usize), ParseError>
    ensures { block_in result scratch.new ≡ lent_block s.now scratch.old (transformed_of destination s.now) }
{
    let n = s.len();
    if scratch.len() < n {
        return Err(ParseError::NoRoom);
    }
    copy(s, scratch);
    let d = &mut scratch[..n];
    if destination {
        transformed(rst_escaped_link_destination_transform(d), n)
    } else {
        transformed(rst_escaped_link_text_transform(d), n)
    }
}

// The parsers that give raw parts.
fn raw(kind: usize, s: &[u8]) -> Parsed
    ensures { result ≡ raw_of kind s.now }
{
    match kind {
        1 => rst_parse_text2target(s, false, false).into(),
        2 => rst_parse_text2target(s, false, true).into(),
        3 => rst_parse_text2target(s, true, false).into(),
        4 => rst_parse_text2target(s, true, true).into(),
        5 => rst_parse_simple_label(s).into(),
        6 => rst_parse_text2label(s).into(),
        7 => rst_parse_label2target(s, false).into(),
        8 => rst_parse_label2target(s, true).into(),
        _ => without(0),
    }
}

// What the parser of this number answers.
pub fn rst_parser(kind: usize, s: &[u8], scratch: &mut [u8]) -> Parsed
    ensures raw { kind < 9 → result ≡ raw_of kind s.now }
    ensures transform { 9 ≤ kind → kind ≤ 10 → block_said result scratch.new ≡ lent_block s.now scratch.old (transformed_at kind s.now) }
    ensures block { 11 ≤ kind → kind ≤ 12 → block_said result scratch.new ≡ lent_block s.now scratch.old (block_at kind s.now) }
    ensures strings { 13 ≤ kind → kind ≤ 17 → strings_said result scratch.new ≡ lent s.now scratch.old (form_at kind s.now) }
{
    match kind {
        0..9 => raw(kind, s),
        9 => transform(s, scratch, false).into(),
        10 => transform(s, scratch, true).into(),
        11 => rst_explicit_markup_block(s, b".. ", scratch).into(),
        12 => rst_explicit_markup_block(s, b"__ ", scratch).into(),
        13 => rst_text2dest(s, scratch).into(),
        14 => rst_text_label2dest(s, scratch).into(),
        15 => rst_text2label(s, scratch).into(),
        16 => rst_label2dest(s, scratch).into(),
        17 => rst_label2label(s, scratch).into(),
        _ => without(0),
    }
}
