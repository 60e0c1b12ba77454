// Rows in the work numbers: a link takes seven of them, a name with its destination or its target four. The strings that they name
// stand in the work bytes; the text of a rendered block stands in the document.
// No `Vec` of rows: there is no heap. No `as_chunks_mut`: its contract says nothing of what the numbers end as.
// No ghost field says that a row's numbers are below 2^32: specs/Rows reads rows from any numbers, and each would need a proof of that.
ghost use Rattle.std.specs.Prelude.{◌≡◌, ◌+◌, ◌*◌, ◌^◌, ◌≤◌, ◌<◌, length};
ghost use Rattle.iterator.specs.Rows.{kind_at, span_at, pair_at, link_at, put_span, put_pair, put_link, place_of};
ghost use Rattle.iterator.specs.Inner.{SpanSmall, PairSmall, LinkSmall};

use restructured_text::Span;

// A name, and its destination or, of an alias, its target.
#[derive(Clone, Copy)]
pub struct PairRow {
    pub name: Span,
    pub to: Span,
}

// A link: its place, how much it consumed, its text, its destination or label, and which of the three kinds it is.
#[derive(Clone, Copy)]
pub struct LinkRow {
    pub place: usize,
    pub consumed: usize,
    pub text: Span,
    pub goal: Span,
    pub kind: LinkKind,
}

// What a link's goal and text are.
#[derive(Clone, Copy, Debug, PartialEq, Eq)]
pub enum LinkKind {
    // A link whose goal is a destination.
    Direct = 0,
    // A reference, whose goal is a label until it is resolved.
    Reference = 1,
    // A destination block that is a link too, whose text is a part of the document.
    Rendered = 2,
}

// The kind that stands in a row as a number; rows hold no other numbers than those of the three.
impl From<u32> for LinkKind {
    ghost from_gives = { λ n kind. kind ≡ kind_at n };

    fn from(n: u32) -> Self {
        match n {
            1 => LinkKind::Reference,
            2 => LinkKind::Rendered,
            _ => LinkKind::Direct,
        }
    }
}

// How many links, and how many names, are collected at the most.
pub const ROWS_MAX: usize = 256;
// Where the table of the names with a destination starts; the links stand before it.
const DESTINATIONS: usize = 7 * ROWS_MAX;
// Where the table of the aliases starts.
pub const ALIASES: usize = DESTINATIONS + 4 * ROWS_MAX;

// The two numbers at a place.
fn span_at(n: usize, numbers: &[u32]) -> Span
    requires { n + 2 ≤ length numbers.now }
    ensures { result ≡ span_at numbers.now n }
{
    Span {
        start: numbers[n] as usize,
        len: numbers[n + 1] as usize,
    }
}

// Two numbers put at a place.
fn put_span(n: usize, x: Span, numbers: &mut [u32])
    requires room { n + 2 ≤ length numbers.old }
    requires small { SpanSmall x }
    ensures { numbers.new ≡ put_span numbers.old n x }
{
    numbers[n] = x.start as u32;
    numbers[n + 1] = x.len as u32;
}

// The two tables of names: with a destination, and aliases. Their rows and those of links are read and put by functions of their own, not by
// generic ones over N numbers: each field has a type and a place of its own.
#[derive(Clone, Copy, Debug, PartialEq, Eq)]
pub enum Table {
    Destinations,
    Aliases,
}

impl Table {
    // Where its row i stands.
    fn place(self, i: usize) -> usize
        requires { place_of self i < 2 ^ 64 }
        ensures { result ≡ place_of self i }
    {
        match self {
            Table::Destinations => DESTINATIONS + 4 * i,
            Table::Aliases => ALIASES + 4 * i,
        }
    }

    // Its row i.
    pub fn row(self, i: usize, numbers: &[u32]) -> PairRow
        requires { place_of self i + 4 ≤ length numbers.now }
        ensures { result ≡ pair_at numbers.now (place_of self i) }
    {
        let n = self.place(i);
        PairRow {
            name: span_at(n, numbers),
            to: span_at(n + 2, numbers),
        }
    }

    // Its row i, put.
    pub fn put(self, i: usize, x: PairRow, numbers: &mut [u32])
        requires room { place_of self i + 4 ≤ length numbers.old }
        requires small { PairSmall x }
        ensures { numbers.new ≡ put_pair numbers.old (place_of self i) x }
    {
        let n = self.place(i);
        put_span(n, x.name, numbers);
        put_span(n + 2, x.to, numbers);
    }
}

// The row of link i.
pub fn link_at(i: usize, numbers: &[u32]) -> LinkRow
    requires { 7 * i + 7 ≤ length numbers.now }
    ensures { result ≡ link_at numbers.now (7 * i) }
{
    let n = 7 * i;
    LinkRow {
        place: numbers[n] as usize,
        consumed: numbers[n + 1] as usize,
        text: span_at(n + 2, numbers),
        goal: span_at(n + 4, numbers),
        kind: LinkKind::from(numbers[n + 6]),
    }
}

// The row of link i, put.
pub fn put_link(i: usize, x: LinkRow, numbers: &mut [u32])
    requires room { 7 * i + 7 ≤ length numbers.old }
    requires small { LinkSmall x }
    ensures { numbers.new ≡ put_link numbers.old (7 * i) x }
{
    let n = 7 * i;
    numbers[n] = x.place as u32;
    numbers[n + 1] = x.consumed as u32;
    put_span(n + 2, x.text, numbers);
    put_span(n + 4, x.goal, numbers);
    numbers[n + 6] = x.kind as u32;
}
