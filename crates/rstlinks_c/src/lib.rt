// The two public calls for C, as include/rstlinks.h says them; `rstlinks_c_c` exports them.
//
// Each hands on what `iterator::document` and `parse::single_link` answer, and promises the same equation.
#![tactic(auto)]

ghost use Rattle.std.specs.Prelude.{◌≡◌};
ghost use Rattle.parse.specs.Refusal.{number_of, bytes_of};
ghost use Rattle.parse.specs.Single.{single_of};
ghost use Rattle.iterator.specs.Document.{answer_of, document_of, verdict};
ghost use Rattle.rstlinks_c.specs.Taken.{taken, Short, AllShort, LinkShort, refusal, acceptance, link_taken};

use iterator::Outcome;
use parse::{Link, Refusal, single_link};
use restructured_text::Span;

// An answer: the number of a refusal, or 0, and its place or size in bytes; the case, 1 to 5, or 0; the bytes skipped and consumed;
// the lengths of the two strings, which stand at the front of the buffers. What is not named is 0. Numbers, as C reads it.
#[repr(C)]
#[derive(Clone, Copy, Debug, Default, PartialEq, Eq)]
pub struct Taken {
    pub number: u32,
    pub bytes: u32,
    pub kind: u32,
    pub skipped: u32,
    pub consumed: u32,
    pub first: u32,
    pub second: u32,
}

// What follows are no `From`: each asks that 32 bits hold its numbers.

fn refused(r: Refusal) -> Taken
    requires { Short (bytes_of r) }
    ensures { result ≡ refusal (number_of r) (bytes_of r) }
{
    Taken {
        number: r.number(),
        bytes: r.bytes() as u32,
        ..Taken::default()
    }
}

// Five parameters: a record's fields, with the number of its kind as C has it.
fn linked(kind: u32, a: Span, b: Span, skipped: usize, consumed: usize) -> Taken
    requires { AllShort a.len b.len skipped consumed }
    ensures { result ≡ acceptance kind a.len b.len skipped consumed }
{
    Taken {
        kind,
        skipped: skipped as u32,
        consumed: consumed as u32,
        first: a.len as u32,
        second: b.len as u32,
        ..Taken::default()
    }
}

fn link(x: Link) -> Taken
    requires { LinkShort x }
    ensures { result ≡ link_taken x }
{
    match x {
        Link::Text2Dest(a, b, skipped, consumed) => linked(1, a, b, skipped, consumed),
        Link::TextLabel2Dest(a, b, skipped, consumed) => linked(2, a, b, skipped, consumed),
        Link::Text2Label(a, b, skipped, consumed) => linked(3, a, b, skipped, consumed),
        Link::Label2Dest(a, b, skipped, consumed) => linked(4, a, b, skipped, consumed),
        Link::Label2Label(a, b, skipped, consumed) => linked(5, a, b, skipped, consumed),
    }
}

// The first link of the document from a place on.
pub fn rst_take_link(document: &[u8], place: usize, first: &mut [u8], second: &mut [u8]) -> Taken
    ensures { taken result first.new second.new ≡ single_of document.now place first.old second.old }
{
    match single_link(document, place, first, second) {
        Ok(x) => link(x),
        Err(r) => refused(r),
    }
}

// All links of the document, resolved, as records.
pub fn rst_document(
    document: &[u8],
    render: u32,
    numbers: &mut [u32],
    bytes: &mut [u8],
    output: &mut [u8],
) -> Outcome
    ensures { answer_of (verdict result output.new) numbers.new bytes.new ≡ document_of document.now render numbers.old bytes.old output.old }
{
    iterator::document(document, render, numbers, bytes, output)
}
