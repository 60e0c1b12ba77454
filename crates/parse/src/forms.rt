// The forms that are tried at one place, in their order. The scratch is as long as the text, so that no parser lacks room: an error of one
// says that its form is not there.
ghost use Rattle.std.specs.Prelude.{◌≡◌, ◌+◌, ◌≤◌, length, take, drop};
ghost use Rattle.parse.specs.Link.{found_of, FoundEnds, behind};
ghost use Rattle.parse.specs.Forms.{tried, rst};
ghost use Rattle.parse.specs.Scan.{consumed_of};
ghost use Rattle.parse.specs.Inner.{Holds};
ghost use Rattle.parse.specs.Place.{rest_of, found_at, Ready, Learns};

use crate::place::Place;
use crate::{Known, Link};
use memchr::memchr;
use restructured_text::inline::{rst_text_label2dest, rst_text2dest, rst_text2label};
use restructured_text::target::{Definition, rst_target};
use rst_bytes::line::is_space;

// An alias block, else a destination block. No block is both: so both are read at once.
pub fn block(place: Place, scratch: &mut [u8]) -> Option<Link>
    requires { length place.text.now ≤ length scratch.old }
    ensures scan { found_of result scratch.new ≡ behind place.entry.at (tried rst.blocks (rest_of place.entry)) }
    ensures ends { FoundEnds result }
{
    match rst_target(place.rest(), scratch).ok()? {
        Definition::Alias(a, b, n) => Some(Link::Label2Label(a, b, place.at, n)),
        Definition::Destination(a, b, n) => Some(Link::Label2Dest(a, b, place.at, n)),
    }
}

// How many bytes a block at the front may have, if one begins: those up to a line that begins with no blank, which is no further line. It has no
// contract, since no answer hangs on it.
pub fn reach(s: &[u8]) -> usize {
    let mut i = 0;
    // No `for`: a turn takes a line.
    while i < s.len() {
        i += memchr(b'\n', &s[i..]).unwrap_or(s.len() - i);
        if !s.get(i + 1).is_some_and(|&b| is_space(b)) {
            return i;
        }
        i += 1;
    }
    i
}

// How many bytes a link of n bytes consumes with the destination block that stands directly behind it, if one does. What stands in the
// first n bytes of the scratch stays. Where no block begins there that is known then.
fn with_unreported(place: Place, n: usize, scratch: &mut [u8], known: &mut Known) -> usize
    requires link { place.at + n ≤ length place.text.now }
    requires ready { Ready place known.old scratch.old }
    ensures consumed { result ≡ n + consumed_of (tried rst.unreported (drop (place.entry.at + n) place.entry.text.now)) }
    ensures kept { take n scratch.new ≡ take n scratch.old }
    ensures known { Holds (place.entry.at + result) known.new place.entry.marks.now place.entry.text.now }
{
    if place.may_begin(n) {
        let rest = place.further(n);
        match rst_target(rest, &mut scratch[n..]) {
            Ok(Definition::Alias(_, _, _)) => return n,
            Ok(Definition::Destination(_, _, m)) => return n + m,
            Err(_) => known.add_failed(place.at + n, rest),
        }
    }
    known.blocks = place.at + n + 1;
    n
}

// An anonymous embedded link, else a named one.
pub fn embedded(place: Place, scratch: &mut [u8], known: &mut Known) -> Option<Link>
    requires { Ready place known.old scratch.old }
    ensures scan { found_of result scratch.new ≡ found_at place.entry (tried rst.embedded (rest_of place.entry)) }
    ensures ends { FoundEnds result }
    ensures known { Learns place.entry known.old known.new result }
{
    if let Ok((a, b, n)) = rst_text2dest(place.rest(), scratch) {
        let m = with_unreported(place, n, scratch, known);
        return Some(Link::Text2Dest(a, b, place.at, m));
    }
    let (a, b, n) = rst_text_label2dest(place.rest(), scratch).ok()?;
    let m = with_unreported(place, n, scratch, known);
    Some(Link::TextLabel2Dest(a, b, place.at, m))
}

// A reference.
pub fn reference(place: Place, scratch: &mut [u8], known: &mut Known) -> Option<Link>
    requires { Ready place known.old scratch.old }
    ensures scan { found_of result scratch.new ≡ found_at place.entry (tried rst.references (rest_of place.entry)) }
    ensures ends { FoundEnds result }
    ensures known { Learns place.entry known.old known.new result }
{
    let (a, b, n) = rst_text2label(place.rest(), scratch).ok()?;
    let m = with_unreported(place, n, scratch, known);
    Some(Link::Text2Label(a, b, place.at, m))
}
