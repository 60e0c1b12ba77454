// Records: eight bytes with four fields of 15 bits, the text, the destination.
ghost use Rattle.std.specs.Prelude.{◌≡◌, ◌++◌, ◌+◌, ◌≤◌, length, drop};
ghost use Rattle.restructured_text.specs.Strings.{part};
ghost use Rattle.iterator.specs.Resolve.{shown_of};
ghost use Rattle.iterator.specs.Records.{word_of, bytes8, record_of, records_of};
ghost use Rattle.iterator.specs.Rows.{text_of, hyperlink_of, hyperlinks_in, room, LinkWithin};
ghost use Rattle.iterator.specs.Inner.{Writing, Fields};

use crate::rows::{LinkKind, LinkRow, link_at};
use rst_bytes::copy::copy;

// A reference's shown text: the text part, or the destination part if that is empty.
fn shown<'a>(text: &'a [u8], dest: &'a [u8]) -> &'a [u8]
    ensures { result.now ≡ shown_of text.now dest.now }
{
    if text.is_empty() { dest } else { text }
}

// The four fields, written to the front of the output.
fn write_head(skipped: usize, consumed: usize, text: usize, dest: usize, output: &mut [u8])
    requires fields { Fields skipped consumed text dest }
    requires room { 8 ≤ length output.old }
    ensures { output.new ≡ bytes8 (word_of skipped consumed text dest) ++ drop 8 output.old }
{
    let word = (skipped as u64) << 49
        | (consumed as u64) << 34
        | (text as u64) << 19
        | (dest as u64) << 4;
    copy(&word.to_be_bytes(), output);
}

// Where the strings of links stand: the document, and the work bytes.
#[derive(Clone, Copy)]
pub struct Strings<'a> {
    pub document: &'a [u8],
    pub bytes: &'a [u8],
    ghost short: { length document.now ≤ 16384 },
    ghost roomy: { room ≤ length bytes.now },
}

impl<'a> Strings<'a> {
    // A link's text; its goal is a destination.
    fn text_of(self, x: LinkRow) -> &'a [u8]
        requires { LinkWithin (length self.document.now) room x }
        ensures { result.now ≡ text_of self.entry.document.now self.entry.bytes.now x }
    {
        match x.kind {
            LinkKind::Direct => x.text.of(self.bytes),
            LinkKind::Reference => shown(x.text.of(self.bytes), x.goal.of(self.bytes)),
            LinkKind::Rendered => x.text.of(self.document),
        }
    }

    // How many bytes a link's record takes.
    pub fn record_len(self, x: LinkRow) -> usize
        requires { LinkWithin (length self.document.now) room x }
        ensures { result ≡ 8 + length (text_of self.entry.document.now self.entry.bytes.now x) + length (part x.goal self.entry.bytes.now) }
    {
        8 + self.text_of(x).len() + x.goal.len
    }

    // A link's record, written to the front of the output; how many bytes it is. The consumed part of the link before ended at `end`.
    fn write_record(self, x: LinkRow, end: usize, output: &mut [u8]) -> usize
        requires within { LinkWithin (length self.document.now) room x }
        requires order { end ≤ x.place }
        requires room { length (record_of end (hyperlink_of self.document.now self.bytes.now x)) ≤ length output.old }
        ensures written { output.new ≡ record_of end (hyperlink_of self.entry.document.now self.entry.bytes.now x) ++ drop result output.old }
        ensures size { result ≡ length (record_of end (hyperlink_of self.entry.document.now self.entry.bytes.now x)) }
    {
        let text = self.text_of(x);
        let dest = x.goal.of(self.bytes);
        write_head(x.place - end, x.consumed, text.len(), dest.len(), output);
        copy(text, &mut output[8..]);
        copy(dest, &mut output[8 + text.len()..]);
        8 + text.len() + dest.len()
    }

    // The records of the first n links, written to the front of the output.
    pub fn write_records(self, n: usize, numbers: &[u32], output: &mut [u8])
        requires { Writing n self.document.now numbers.now self.bytes.now output.old }
        ensures { output.new ≡ records_of (hyperlinks_in n self.entry.document.now numbers.now self.entry.bytes.now) ++ drop (length (records_of (hyperlinks_in n self.entry.document.now numbers.now self.entry.bytes.now))) output.old }
    {
        let mut end = 0;
        let mut at = 0;
        for i in 0..n {
            let x = link_at(i, numbers);
            at += self.write_record(x, end, &mut output[at..]);
            end = x.place + x.consumed;
        }
    }
}
