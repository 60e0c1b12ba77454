// The links that records hold.
ghost use Rattle.std.specs.Prelude.{◌+◌, ◌*◌, ◌≤◌, length, IfSome, Some};
ghost use Rattle.std.specs.Iterator.{at_most};
ghost use Rattle.rstlinks.specs.Link.{hyperlink_of, line_of, ReadsFront};

use crate::head::read_head;
use crate::quote::Quoted;
use std::fmt;

// A link, which prints as place, bytes consumed, text and destination.
#[derive(Clone, Copy)]
pub struct Link<'a> {
    pub place: usize,
    pub consumed: usize,
    pub text: &'a [u8],
    pub dest: &'a [u8],
}

impl fmt::Display for Link<'_> {
    ghost output = { λ l. Some (line_of (hyperlink_of l)) };

    fn fmt<W: fmt::Write>(&self, f: &mut fmt::Formatter<W>) -> fmt::Result {
        let Link {
            place,
            consumed,
            text,
            dest,
        } = *self;
        write!(f, "{place} {consumed} {} {}", Quoted(text), Quoted(dest))
    }
}

// The links of the records that are left, behind a link that ends at a place.
#[derive(Drop)]
pub struct Links<'a> {
    pub records: &'a [u8],
    pub end: usize,
    // A record has eight bytes at the least, and takes the place on by at most 65,534.
    ghost fits: { end + 65534 * length records.now ≤ 4294836224 },
}

// It ends before a record that does not end within the records, which the document call never writes.
impl<'a> Iterator for Links<'a> {
    type Item = Link<'a>;

    ghost remaining = { λ s. at_most (length s.records.now) };

    ghost next_gives = { λ s r t. IfSome r (ReadsFront s.end s.records.now t.end t.records.now) };

    fn next(&mut self) -> Option<Link<'a>> {
        let (_, rest) = self.records.split_at_checked(8)?;
        let head = read_head(self.records);
        let (text, rest) = rest.split_at_checked(head.text)?;
        let (dest, rest) = rest.split_at_checked(head.dest)?;
        let place = self.end + head.skipped;
        *self = Links {
            records: rest,
            end: place + head.consumed,
        };
        Some(Link {
            place,
            consumed: head.consumed,
            text,
            dest,
        })
    }
}
