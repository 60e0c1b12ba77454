// The scanner: the next link of a text, whichever of the five cases it is, and the single-link call.
//
// The third layer (document 01, "`parse.rs`: `take_link`"), over the promises of `restructured_text`. A public call asks nothing of
// its caller and always returns; its contract is an equation with a definition of specs/.
#![tactic(auto)]

mod backtick;
mod barren;
mod buffers;
mod calm;
mod dull;
mod forms;
mod onward;
mod place;
mod refusal;
mod rounds;

ghost use Rattle.std.specs.Prelude.{◌≡◌, ℕ, ◌+◌, ◌≤◌, OnErr};
ghost use Rattle.parse.specs.Link.{scanned_of, Ends, lent};
ghost use Rattle.parse.specs.Scan.{scan_of};
ghost use Rattle.parse.specs.Single.{outcome_of, single_of, Fronts};
ghost use Rattle.parse.specs.Inner.{first_of, second_of, link_end, Holds, TrueBehind};

use crate::buffers::{hand_over, is_place};
use crate::calm::Calm;
use crate::forms::reach;
use crate::onward::next_of;
use crate::place::Place;
pub use crate::refusal::Refusal;
use crate::rounds::round;
use restructured_text::{ParseError, Span};
use rst_bytes::domain::first_outside;
use std::ops::ControlFlow;
use targetless::mark;

// A link: where its first string (text or name) and its second string (label, destination or alias target) stand, how many bytes
// were skipped before it and how many it consumed. Document 01 names this form, five cases with the same four parts. No equality is
// derived: `Span` has none.
#[derive(Clone, Copy)]
pub enum Link {
    // An anonymous embedded link.
    Text2Dest(Span, Span, usize, usize),
    // A named embedded link, which also defines its text as a name.
    TextLabel2Dest(Span, Span, usize, usize),
    // A reference.
    Text2Label(Span, Span, usize, usize),
    // A block that gives a name a destination.
    Label2Dest(Span, Span, usize, usize),
    // A block that makes a name an alias.
    Label2Label(Span, Span, usize, usize),
}

impl Link {
    // The four parts, whichever case it is.
    fn parts(self) -> (Span, Span, usize, usize)
        ensures strings { (result.0 ≡ first_of self) × (result.1 ≡ second_of self) }
        ensures end { result.2 + result.3 ≡ link_end self }
    {
        match self {
            Link::Text2Dest(a, b, skipped, consumed)
            | Link::TextLabel2Dest(a, b, skipped, consumed)
            | Link::Text2Label(a, b, skipped, consumed)
            | Link::Label2Dest(a, b, skipped, consumed)
            | Link::Label2Label(a, b, skipped, consumed) => (a, b, skipped, consumed),
        }
    }
}

// What is known from a place on: before `shut` no backtick begins a part that is closed, before `barren` none begins an embedded link,
// before `blocks` no block begins. Of the others no claim is made: how many bytes the blocks may have that were read and are none, and the place
// before which those places are marked at which none begins.
#[derive(Clone, Copy, Debug, Default, PartialEq, Eq)]
pub struct Known {
    pub shut: usize,
    pub barren: usize,
    pub blocks: usize,
    pub failed: usize,
    pub marked: usize,
}

// How many bytes the blocks have that were read and are none, at the least, before the places are marked at which none begins.
const FAILED_LEAST: usize = 1024;

impl Known {
    // The block at place i, where s stands, was read and is none. Where the places are marked it counts no more.
    fn add_failed(&mut self, i: usize, s: &[u8])
        ensures rest { self.new ≡ record self.old { failed = self.new.failed } }
        ensures counted { self.old.failed ≤ self.new.failed }
    {
        if self.marked <= i {
            self.failed = self.failed.saturating_add(reach(s));
        }
    }

    // Marks the places of s at which no block begins, once the blocks that are none may have had half as many bytes as s has, and place i is not among
    // those that are marked. What was known is known then too.
    fn mark(&mut self, s: &[u8], i: usize, marks: &mut [u8])
        ensures { (m : ℕ) → Holds m self.old marks.old s.now → Holds m self.new marks.new s.now }
    {
        if (s.len() / 2).max(FAILED_LEAST) <= self.failed && self.marked <= i {
            mark(s, marks);
            self.marked = s.len();
        }
    }
}

// The longest document.
pub const DOCUMENT_LEN_MAX: usize = 16384;

// The first link of s, which counts as the start of the input; its strings are left in the scratch. There is no room for marks, so none are
// to be made.
pub fn take_link(s: &[u8], scratch: &mut [u8]) -> Result<Link, ParseError>
    ensures scan { scanned_of result scratch.new ≡ lent s.now scratch.old (scan_of s.now) }
    ensures ends { Ends result }
{
    let mut known = Known {
        marked: s.len(),
        ..Known::default()
    };
    next_link(s, scratch, &mut [], &mut known)
}

// The same where something is known; where a link is found, `known` is left as what is known behind it, and else as it was. It is `iterator` that
// goes from link to link so. This alone of the public functions asks something of its caller: that what it hands in is true, as what it was left
// is. The marks are one for each place of the text; where there are fewer, none is set.
pub fn next_link(
    s: &[u8],
    scratch: &mut [u8],
    marks: &mut [u8],
    known: &mut Known,
) -> Result<Link, ParseError>
    requires known { Holds 0 known.old marks.old s.now }
    ensures scan { scanned_of result scratch.new ≡ lent s.now scratch.old (scan_of s.now) }
    ensures ends { Ends result }
    ensures known { TrueBehind s.now marks.new known.new result }
    ensures kept { OnErr result (known.new ≡ known.old) }
{
    let entry = *known;
    let found = scan_link(s, scratch, marks, known);
    if found.is_err() {
        *known = entry;
    }
    found
}

// Goes from round to round. Where no link is found, what the rounds learnt is known of places behind the front alone.
fn scan_link(
    s: &[u8],
    scratch: &mut [u8],
    marks: &mut [u8],
    known: &mut Known,
) -> Result<Link, ParseError>
    requires known { Holds 0 known.old marks.old s.now }
    ensures scan { scanned_of result scratch.new ≡ lent s.now scratch.old (scan_of s.now) }
    ensures ends { Ends result }
    ensures known { TrueBehind s.now marks.new known.new result }
{
    if scratch.len() < s.len() {
        return Err(ParseError::NoRoom);
    }
    let mut i = 0;
    let mut input_start = true;
    let mut calm = Calm::default();
    // No `for`: a turn passes as many bytes as it finds.
    while i < s.len() {
        i = match calm.pass(s, i, input_start, known.barren) {
            Some(next) => next,
            None => {
                known.mark(s, i, marks);
                let place = Place {
                    text: s,
                    marks,
                    at: i,
                };
                match round(place, scratch, input_start, known) {
                    ControlFlow::Break(found) => return next_of(s, found, known),
                    ControlFlow::Continue(next) => next,
                }
            }
        };
        input_start = false;
    }
    Err(ParseError::NotFound)
}

// The first link of the document from a place on; its strings are written to the front of the two buffers, or all of this is
// refused and nothing is written.
pub fn single_link(
    document: &[u8],
    place: usize,
    first: &mut [u8],
    second: &mut [u8],
) -> Result<Link, Refusal>
    ensures outcome { outcome_of result first.new second.new ≡ single_of document.now place first.old second.old }
    ensures fronts { Fronts result }
{
    if DOCUMENT_LEN_MAX < document.len() {
        return Err(Refusal::DocumentLen);
    }
    if let Some(n) = first_outside(document) {
        return Err(Refusal::Character(n));
    }
    if !is_place(document, place) {
        return Err(Refusal::Place);
    }
    // As long as the longest document: so room never lacks, and no link is what an error says.
    let mut scratch = [0u8; DOCUMENT_LEN_MAX];
    let x = take_link(&document[place..], &mut scratch).map_err(|_| Refusal::NoLink)?;
    hand_over(x, &scratch, first, second)
}
