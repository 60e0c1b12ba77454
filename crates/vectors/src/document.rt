// The document call: whether it answers what is recorded, and what it leaves in the lent areas.

use crate::areas::{Areas, all_are, holds};
use crate::records::Record;
use crate::rest::Rest;
use iterator::Outcome;
use rstlinks_c::rst_document;

// What the areas hold before a call.
const NUMBER: u32 = 7;

const BYTE: u8 = b'_';

// A document call, and what it answers.
#[derive(Clone, Copy)]
pub struct DocumentCall<'a> {
    render: u32,
    numbers_len: usize,
    bytes_len: usize,
    output_len: usize,
    answer: Outcome,
    records: &'a [u8],
}

impl<'a> Record<'a> for DocumentCall<'a> {
    fn read(rest: &mut Rest<'a>) -> Option<Self> {
        let render = rest.four()?;
        let numbers_len = rest.four()? as usize;
        let bytes_len = rest.four()? as usize;
        let output_len = rest.four()? as usize;
        let answer = Outcome {
            number: u32::from(rest.one()?),
            links: u32::from(rest.two()?),
            bytes: rest.four()?,
        };
        // There are records only where the call accepts.
        let records_len = if answer.number == 0 {
            answer.bytes as usize
        } else {
            0
        };
        Some(DocumentCall {
            render,
            numbers_len,
            bytes_len,
            output_len,
            answer,
            records: rest.bytes(records_len)?,
        })
    }
}

impl DocumentCall<'_> {
    // What the call answers, with as much of each area as is recorded.
    fn call(&self, document: &[u8], areas: &mut Areas) -> Option<Outcome> {
        let numbers = areas.numbers.get_mut(..self.numbers_len)?;
        let bytes = areas.bytes.get_mut(..self.bytes_len)?;
        let output = areas.output.get_mut(..self.output_len)?;
        Some(rst_document(document, self.render, numbers, bytes, output))
    }

    // Whether the call answers what is recorded; and whether it leaves the work areas zero, writes the records, and leaves all else as
    // it was.
    pub fn agrees(&self, document: &[u8], areas: &mut Areas) -> bool {
        areas.numbers.fill(NUMBER);
        areas.bytes.fill(BYTE);
        areas.output.fill(BYTE);
        self.call(document, areas) == Some(self.answer)
            && areas
                .output
                .strip_prefix(self.records)
                .is_some_and(|behind| all_are(behind, &BYTE))
            && holds(&areas.numbers, self.numbers_len, &0, &NUMBER)
            && holds(&areas.bytes, self.bytes_len, &0, &BYTE)
    }
}
