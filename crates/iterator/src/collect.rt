// Collecting: every link of the document, one after the other, into the tables.
ghost use Rattle.std.specs.Prelude.{◌≡◌, ◌≤◌, length};
ghost use Rattle.parse.specs.Link.{text2label, label2dest, label2label};
ghost use Rattle.iterator.specs.Render.{render_number};
ghost use Rattle.iterator.specs.Inner.{
  Roomy,
  after,
  Unmarked,
  LinkSmall,
  PairSmall,
  TablesFit,
  link_added,
  with_link_row,
  name_added,
  with_name_row,
  both_added,
  with_both_rows,
  Labellable,
  LabelledBy,
  Addable,
  Adds,
  Fitting,
  row_of,
  read_to,
  Scannable,
  AddsScanned,
  Collects,
};

use crate::counters::Counters;
use crate::names::{is_anonymous, write_numbered};
use crate::render::Render;
use crate::rows::{LinkKind, LinkRow, PairRow, ROWS_MAX, Table, put_link};
use parse::{DOCUMENT_LEN_MAX, Known, Link, Refusal, next_link};
use restructured_text::Span;

// The longest document that few marks are enough for.
const SHORT_LEN_MAX: usize = 1024;

// What is collected so far: how far the document is read, how many work bytes are taken, how many rows each table has, and the counters.
#[derive(Clone, Copy, Debug, Default, PartialEq, Eq)]
pub struct MarkupLinkCollection {
    pub at: usize,
    pub taken: usize,
    pub links: usize,
    pub label2dest: usize,
    pub label2label: usize,
    pub counters: Counters,
}

impl MarkupLinkCollection {
    // One link more.
    fn add_link(&mut self, x: LinkRow, numbers: &mut [u32]) -> Result<(), Refusal>
        requires { TablesFit numbers.old self.old × LinkSmall x }
        ensures step { after result self.new ≡ link_added self.old }
        ensures row { numbers.new ≡ with_link_row numbers.old self.old x }
    {
        if ROWS_MAX <= self.links {
            return Err(Refusal::Links);
        }
        put_link(self.links, x, numbers);
        self.links += 1;
        Ok(())
    }

    // One name more, in one of the two tables.
    fn add_name(&mut self, table: Table, x: PairRow, numbers: &mut [u32]) -> Result<(), Refusal>
        requires { TablesFit numbers.old self.old × PairSmall x }
        ensures step { after result self.new ≡ name_added table self.old }
        ensures row { numbers.new ≡ with_name_row table numbers.old self.old x }
    {
        if ROWS_MAX <= self.label2dest + self.label2label {
            return Err(Refusal::Names);
        }
        match table {
            Table::Destinations => {
                table.put(self.label2dest, x, numbers);
                self.label2dest += 1;
            }
            Table::Aliases => {
                table.put(self.label2label, x, numbers);
                self.label2label += 1;
            }
        }
        Ok(())
    }

    // One link and then one name with a destination more.
    fn add_both(&mut self, x: LinkRow, y: PairRow, numbers: &mut [u32]) -> Result<(), Refusal>
        requires { TablesFit numbers.old self.old × (LinkSmall x × PairSmall y) }
        ensures step { after result self.new ≡ both_added self.old }
        ensures rows { numbers.new ≡ with_both_rows numbers.old self.old x y }
    {
        self.add_link(x, numbers)?;
        self.add_name(Table::Destinations, y, numbers)
    }

    // The label of a reference or the name of a block: if it is `_`, the next number of its kind.
    fn label(&mut self, a: Span, next: (u32, Counters), bytes: &mut [u8]) -> Span
        requires { Labellable a next self.old bytes.old }
        ensures { LabelledBy a next self.old bytes.old self.new bytes.new result }
    {
        if !is_anonymous(a.of(bytes)) {
            return a;
        }
        let (number, counters) = next;
        let start = self.taken;
        let len = write_numbered(number, &mut bytes[start..]);
        self.taken += len;
        self.counters = counters;
        Span { start, len }
    }

    // A reference.
    fn add_text2label(
        &mut self,
        x: LinkRow,
        numbers: &mut [u32],
        bytes: &mut [u8],
    ) -> Result<(), Refusal>
        requires { Addable numbers.old bytes.old x self.old }
        ensures { Adds text2label 0 x self.old numbers.old bytes.old numbers.new bytes.new (after result self.new) }
    {
        let goal = self.label(x.goal, self.counters.next_reference(), bytes);
        self.add_link(
            LinkRow {
                goal,
                kind: LinkKind::Reference,
                ..x
            },
            numbers,
        )
    }

    // A destination block.
    fn add_label2dest(
        &mut self,
        render: Render,
        x: LinkRow,
        numbers: &mut [u32],
        bytes: &mut [u8],
    ) -> Result<(), Refusal>
        requires { Addable numbers.old bytes.old x self.old }
        ensures { Adds label2dest (render_number render) x self.old numbers.old bytes.old numbers.new bytes.new (after result self.new) }
    {
        let name = self.label(x.text, self.counters.next_target(), bytes);
        let pair = PairRow { name, to: x.goal };
        match render {
            Render::On => {
                let text = Span {
                    start: x.place,
                    len: x.consumed,
                };
                self.add_both(
                    LinkRow {
                        text,
                        kind: LinkKind::Rendered,
                        ..x
                    },
                    pair,
                    numbers,
                )
            }
            Render::Off => self.add_name(Table::Destinations, pair, numbers),
        }
    }

    // An alias block.
    fn add_label2label(
        &mut self,
        x: LinkRow,
        numbers: &mut [u32],
        bytes: &mut [u8],
    ) -> Result<(), Refusal>
        requires { Addable numbers.old bytes.old x self.old }
        ensures { Adds label2label 0 x self.old numbers.old bytes.old numbers.new bytes.new (after result self.new) }
    {
        let name = self.label(x.text, self.counters.next_target(), bytes);
        self.add_name(Table::Aliases, PairRow { name, to: x.goal }, numbers)
    }

    // The row of a link that was found, whose strings stand in the work bytes behind those that are taken. Then the document is read to
    // the link's end, and the link's strings are taken. The pattern is that of `parts` of `parse`, which is private to it.
    fn take_row(&mut self, x: Link) -> LinkRow
        requires { Fitting x self.old }
        ensures row { result ≡ row_of x self.old }
        ensures read { self.new ≡ read_to x self.old }
    {
        let (Link::Text2Dest(a, b, skipped, consumed)
        | Link::TextLabel2Dest(a, b, skipped, consumed)
        | Link::Text2Label(a, b, skipped, consumed)
        | Link::Label2Dest(a, b, skipped, consumed)
        | Link::Label2Label(a, b, skipped, consumed)) = x;
        let row = LinkRow {
            place: self.at + skipped,
            consumed,
            text: Span {
                start: self.taken + a.start,
                len: a.len,
            },
            goal: Span {
                start: self.taken + b.start,
                len: b.len,
            },
            kind: LinkKind::Direct,
        };
        self.at += skipped + consumed;
        self.taken += consumed;
        row
    }

    // A link that was found more.
    fn add(
        &mut self,
        render: Render,
        x: Link,
        numbers: &mut [u32],
        bytes: &mut [u8],
    ) -> Result<(), Refusal>
        requires { Scannable numbers.old bytes.old x self.old }
        ensures { AddsScanned (render_number render) self.old x numbers.old bytes.old numbers.new bytes.new (after result self.new) }
    {
        let row = self.take_row(x);
        match x {
            Link::Text2Dest(..) => self.add_link(row, numbers),
            Link::TextLabel2Dest(..) => {
                let pair = PairRow {
                    name: row.text,
                    to: row.goal,
                };
                self.add_both(row, pair, numbers)
            }
            Link::Text2Label(..) => self.add_text2label(row, numbers, bytes),
            Link::Label2Dest(..) => self.add_label2dest(render, row, numbers, bytes),
            Link::Label2Label(..) => self.add_label2label(row, numbers, bytes),
        }
    }
}

// All links of the document. What a scan learnt of backticks and blocks is handed to the next; so are the marks of the places at which no
// block begins, once they are made.
fn gather(
    document: &[u8],
    render: Render,
    numbers: &mut [u32],
    bytes: &mut [u8],
    marks: &mut [u8],
) -> Result<MarkupLinkCollection, Refusal>
    requires { (length document.now ≤ 16384) × (Roomy numbers.old bytes.old × Unmarked document.now marks.old) }
    ensures { Collects (render_number render) document.now numbers.new bytes.new result }
{
    let mut c = MarkupLinkCollection::default();
    let mut known = Known::default();
    // No `for`: each link says where the next scan begins.
    while c.at < document.len() {
        let Ok(x) = next_link(
            &document[c.at..],
            &mut bytes[c.taken..],
            &mut marks[c.at..],
            &mut known,
        ) else {
            // No link is left. It is never for want of room: more bytes are free than the document has.
            return Ok(c);
        };
        c.add(render, x, numbers, bytes)?;
    }
    Ok(c)
}

// The same with N marks, all zero.
fn gather_with<const N: usize>(
    document: &[u8],
    render: Render,
    numbers: &mut [u32],
    bytes: &mut [u8],
) -> Result<MarkupLinkCollection, Refusal>
    requires { (N ≤ 16384) × ((length document.now ≤ N) × Roomy numbers.old bytes.old) }
    ensures { Collects (render_number render) document.now numbers.new bytes.new result }
{
    let mut marks = [0u8; N];
    gather(document, render, numbers, bytes, &mut marks)
}

// The same for every document. A short one has few marks, so that few are zeroed.
pub fn collect(
    document: &[u8],
    render: Render,
    numbers: &mut [u32],
    bytes: &mut [u8],
) -> Result<MarkupLinkCollection, Refusal>
    requires { (length document.now ≤ 16384) × Roomy numbers.old bytes.old }
    ensures { Collects (render_number render) document.now numbers.new bytes.new result }
{
    if document.len() <= SHORT_LEN_MAX {
        return gather_with::<SHORT_LEN_MAX>(document, render, numbers, bytes);
    }
    gather_with::<DOCUMENT_LEN_MAX>(document, render, numbers, bytes)
}
