// One round of the scanner: (a) LFs, (b) blocks, (c) blanks, (d) embedded links, (e) references, (f) other bytes.
//
// A step takes a place of the text; one that tries parsers is also lent a scratch as long as the text. It breaks with what was found, or
// goes on. What an earlier round learnt is handed on as places, so that the text before them is not read again and again; and with a link
// that no block begins behind it. Once much was read of blocks that are none, the places of the text are marked at which none
// begins: there none is read.
ghost use Rattle.std.specs.Prelude.{◌≡◌, true, false, ◌<◌, length, get_or};
ghost use Rattle.rst_bytes.specs.Line.{bytes_from};
ghost use Rattle.parse.specs.Link.{found_of, FoundEnds, behind};
ghost use Rattle.parse.specs.Forms.{rst};
ghost use Rattle.parse.specs.Scan.{
  lfs_of,
  block_at,
  is_opening,
  reference_at,
  inline_at,
  is_start,
  is_plain,
  passes,
  passed_of,
  text_round,
  blank_round,
  line_round,
  round_of,
  later,
};
ghost use Rattle.parse.specs.Inner.{NoLink, Barren, Holds, going_on, step_of, StepEnds};
ghost use Rattle.parse.specs.Place.{rest_of, IsTick, found_at, Ready, Learns, StepHolds};

use crate::backtick::part_end;
use crate::barren::{barren, unlinked};
use crate::forms::{block, embedded, reference};
use crate::place::Place;
use crate::{Known, Link};
use rst_bytes::line::space0;
use std::ops::ControlFlow;

// (a) How many LFs stand at the front.
pub fn newlines(s: &[u8]) -> usize
    ensures { result ≡ lfs_of s.now }
{
    s.iter().take_while(|&&b| b == b'\n').count()
}

// Whether a block is to be read: at line or input start, unless it is known that none begins.
fn is_read(place: Place, line: bool, known: Known) -> bool
    requires { Holds place.at known place.marks.now place.text.now }
    ensures { block_at rst result (rest_of place.entry) ≡ block_at rst line (rest_of place.entry) }
{
    line && known.blocks <= place.at && place.may_begin(0)
}

// (b) A block, if it is to be read. One that is none was read in vain.
fn block_step(
    place: Place,
    scratch: &mut [u8],
    line: bool,
    known: &mut Known,
) -> ControlFlow<Option<Link>>
    requires { Ready place known.old scratch.old }
    ensures step { going_on result scratch.new (λ _. later place.entry.at (blank_round rst line (rest_of place.entry)))
        ≡ later place.entry.at (line_round rst line (rest_of place.entry)) }
    ensures ends { StepEnds result }
    ensures known { StepHolds place.entry known.new (λ _. place.entry.at) result }
{
    if !is_read(place, line, *known) {
        return ControlFlow::Continue(());
    }
    if let Some(x) = block(place, scratch) {
        return ControlFlow::Break(Some(x));
    }
    known.add_failed(place.at, place.rest());
    ControlFlow::Continue(())
}

// (e) One of `([<'"`.
#[tactic(auto, unfolding(crate::specs::Scan::is_opening))]
pub fn is_opening(b: u8) -> bool
    ensures { result ≡ is_opening b }
{
    matches!(b, b'(' | b'[' | b'<' | b'\'' | b'"')
}

// (e) A reference, behind one of these if there is one.
fn reference_at(
    mut place: Place,
    scratch: &mut [u8],
    spaced: bool,
    known: &mut Known,
) -> Option<Link>
    requires inside { place.at < length place.text.now }
    requires ready { Ready place known.old scratch.old }
    ensures scan { found_of result scratch.new ≡ found_at place.entry (reference_at rst spaced (rest_of place.entry)) }
    ensures ends { FoundEnds result }
    ensures known { Learns place.entry known.old known.new result }
{
    if !spaced {
        return None;
    }
    place.at += usize::from(is_opening(place.byte()));
    reference(place, scratch, known)
}

// (d) and (e) at a backtick.
fn inline_at(place: Place, scratch: &mut [u8], spaced: bool, known: &mut Known) -> Option<Link>
    requires tick { IsTick place }
    requires ready { Ready place known.old scratch.old }
    ensures scan { found_of result scratch.new ≡ behind place.entry.at (inline_at rst spaced (rest_of place.entry)) }
    ensures ends { FoundEnds result }
    ensures known { Learns place.entry known.old known.new result }
{
    if let Some(x) = embedded(place, scratch, known) {
        return Some(x);
    }
    reference_at(place, scratch, spaced, known)
}

// (f) 1 at each byte at which a link may start. A table, since these bytes stand in a text in no order that a processor can foresee.
const STARTS: [u8; 256] = [
    0, 0, 0, 0, 0, 0, 0, 0, 0, 1, 1, 0, 0, 0, 0, 0, 0, 0, 0, 0, 0, 0, 0, 0, 0, 0, 0, 0, 0, 0, 0, 0,
    1, 1, 0, 0, 0, 0, 0, 0, 0, 0, 0, 0, 0, 0, 0, 0, 0, 0, 0, 0, 0, 0, 0, 0, 0, 0, 0, 0, 1, 0, 0, 0,
    0, 0, 0, 0, 0, 0, 0, 0, 0, 0, 0, 0, 0, 0, 0, 0, 0, 0, 0, 0, 0, 0, 0, 0, 0, 0, 0, 1, 0, 0, 0, 0,
    1, 0, 0, 0, 0, 0, 0, 0, 0, 0, 0, 0, 0, 0, 0, 0, 0, 0, 0, 0, 0, 0, 0, 0, 0, 0, 0, 1, 0, 0, 0, 0,
    0, 0, 0, 0, 0, 0, 0, 0, 0, 0, 0, 0, 0, 0, 0, 0, 0, 0, 0, 0, 0, 0, 0, 0, 0, 0, 0, 0, 0, 0, 0, 0,
    0, 0, 0, 0, 0, 0, 0, 0, 0, 0, 0, 0, 0, 0, 0, 0, 0, 0, 0, 0, 0, 0, 0, 0, 0, 0, 0, 0, 0, 0, 0, 0,
    0, 0, 0, 0, 0, 0, 0, 0, 0, 0, 0, 0, 0, 0, 0, 0, 0, 0, 0, 0, 0, 0, 0, 0, 0, 0, 0, 0, 0, 0, 0, 0,
    0, 0, 0, 0, 0, 0, 0, 0, 0, 0, 0, 0, 0, 0, 0, 0, 0, 0, 0, 0, 0, 0, 0, 0, 0, 0, 0, 0, 0, 0, 0, 0,
];

// (f) One of the bytes at which a link may start.
pub fn is_start(b: u8) -> bool
    ensures { result ≡ is_start b }
{
    STARTS[usize::from(b)] == 1
}

// (f) How many other bytes stand at the front.
pub fn plain(s: &[u8]) -> usize
    ensures { result ≡ bytes_from is_plain 0 s.now }
{
    s.iter().take_while(|&&b| !is_start(b)).count()
}

// (f) The place behind one byte and those others.
fn passed(place: Place) -> usize
    requires { place.at < length place.text.now }
    ensures { later place.entry.at (passed_of (rest_of place.entry)) ≡ passes result }
{
    let n = plain(place.further(1));
    place.at + 1 + n
}

// Whether an embedded link may begin at a place: there is a backtick, and it is not known that none does.
fn may_embed(place: Place, barren: usize) -> bool
    requires inside { place.at < length place.text.now }
    requires barren { Barren place.at barren place.text.now }
    ensures tick { result ≡ true → get_or place.entry.text.now place.entry.at 0 ≡ 0x60 }
    ensures none { result ≡ false → NoLink (rest_of place.entry) }
{
    place.byte() == b'`' && barren <= place.at
}

// (e) and (f) where (d) finds nothing.
fn reference_round(
    place: Place,
    scratch: &mut [u8],
    spaced: bool,
    known: &mut Known,
) -> ControlFlow<Option<Link>, usize>
    requires inside { place.at < length place.text.now }
    requires none { NoLink (rest_of place) }
    requires ready { Ready place known.old scratch.old }
    ensures step { step_of result scratch.new ≡ later place.entry.at (text_round rst spaced (rest_of place.entry)) }
    ensures ends { StepEnds result }
    ensures known { StepHolds place.entry known.new (λ next. next) result }
{
    match reference_at(place, scratch, spaced, known) {
        Some(x) => ControlFlow::Break(Some(x)),
        None => ControlFlow::Continue(passed(place)),
    }
}

// (d) to (f) at a backtick.
fn backtick_round(
    place: Place,
    scratch: &mut [u8],
    spaced: bool,
    known: &mut Known,
) -> ControlFlow<Option<Link>, usize>
    requires tick { IsTick place }
    requires ready { Ready place known.old scratch.old }
    ensures step { step_of result scratch.new ≡ later place.entry.at (text_round rst spaced (rest_of place.entry)) }
    ensures ends { StepEnds result }
    ensures known { StepHolds place.entry known.new (λ next. next) result }
{
    if place.at < known.shut {
        return ControlFlow::Continue(passed(place));
    }
    let close = match part_end(place.rest()) {
        Ok(n) => n,
        Err(n) => {
            known.shut = place.at + n;
            return ControlFlow::Continue(passed(place));
        }
    };
    if let Some(n) = unlinked(place.rest(), close) {
        known.barren = place.at + n;
        return reference_round(place, scratch, spaced, known);
    }
    if let Some(x) = inline_at(place, scratch, spaced, known) {
        return ControlFlow::Break(Some(x));
    }
    known.barren = place.at + barren(place.rest());
    ControlFlow::Continue(passed(place))
}

// (d) to (f).
fn text_round(
    place: Place,
    scratch: &mut [u8],
    spaced: bool,
    known: &mut Known,
) -> ControlFlow<Option<Link>, usize>
    requires { Ready place known.old scratch.old }
    ensures step { step_of result scratch.new ≡ later place.entry.at (text_round rst spaced (rest_of place.entry)) }
    ensures ends { StepEnds result }
    ensures known { StepHolds place.entry known.new (λ next. next) result }
{
    if place.at == place.text.len() {
        return ControlFlow::Break(None);
    }
    if may_embed(place, known.barren) {
        backtick_round(place, scratch, spaced, known)
    } else {
        reference_round(place, scratch, spaced, known)
    }
}

// (a) to (f): what was found, or the place where the next round starts. What is known is so from there on.
pub fn round(
    mut place: Place,
    scratch: &mut [u8],
    start: bool,
    known: &mut Known,
) -> ControlFlow<Option<Link>, usize>
    requires { Ready place known.old scratch.old }
    ensures step { step_of result scratch.new ≡ later place.entry.at (round_of rst start (rest_of place.entry)) }
    ensures ends { StepEnds result }
    ensures known { StepHolds place.entry known.new (λ next. next) result }
{
    let n = newlines(place.rest());
    place.at += n;
    let line = start || 0 < n;
    block_step(place, scratch, line, known)?;
    let m = space0(place.rest());
    place.at += m;
    text_round(place, scratch, line || 0 < m, known)
}
