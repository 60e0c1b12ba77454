// documents.bin: answers of the two public calls, one document after the other.

use crate::areas::Areas;
use crate::document::DocumentCall;
use crate::records::Record;
use crate::rest::Rest;
use crate::single::SingleCall;
use crate::tally::Tally;

// The answers of each kind of call.
#[derive(Clone, Copy, Default)]
pub struct Tallies {
    pub documents: Tally,
    pub singles: Tally,
}

// A document, and how many calls of it follow.
#[derive(Clone, Copy)]
struct Document<'a> {
    text: &'a [u8],
    calls: u8,
}

impl<'a> Record<'a> for Document<'a> {
    fn read(rest: &mut Rest<'a>) -> Option<Self> {
        let len = usize::from(rest.two()?);
        Some(Document {
            text: rest.bytes(len)?,
            calls: rest.one()?,
        })
    }
}

#[derive(Clone, Copy)]
enum Call<'a> {
    Document(DocumentCall<'a>),
    Single(SingleCall<'a>),
}

impl<'a> Record<'a> for Call<'a> {
    fn read(rest: &mut Rest<'a>) -> Option<Self> {
        match rest.one()? {
            1 => DocumentCall::read(rest).map(Call::Document),
            _ => SingleCall::read(rest).map(Call::Single),
        }
    }
}

// How many answers of each kind are recorded, and how many agree. No iterator of documents: the calls of each are read from the same
// rest.
pub fn replay(mut rest: Rest, areas: &mut Areas) -> Tallies {
    let mut tallies = Tallies::default();
    while let Some(document) = Document::read(&mut rest) {
        for _ in 0..document.calls {
            match Call::read(&mut rest) {
                Some(Call::Document(call)) => {
                    tallies.documents.add(call.agrees(document.text, areas));
                }
                Some(Call::Single(call)) => {
                    tallies.singles.add(call.agrees(document.text, areas));
                }
                None => return tallies,
            }
        }
    }
    tallies
}
