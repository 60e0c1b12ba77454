// The single-link call: whether it answers what is recorded.

use crate::areas::Areas;
use crate::records::Record;
use crate::rest::Rest;
use rstlinks_c::{Taken, rst_take_link};

// A single-link call, and what it answers.
#[derive(Clone, Copy)]
pub struct SingleCall<'a> {
    place: usize,
    first_len: usize,
    second_len: usize,
    answer: Taken,
    first: &'a [u8],
    second: &'a [u8],
}

impl<'a> Record<'a> for SingleCall<'a> {
    fn read(rest: &mut Rest<'a>) -> Option<Self> {
        let place = rest.four()? as usize;
        let first_len = usize::from(rest.two()?);
        let second_len = usize::from(rest.two()?);
        let answer = Taken {
            number: u32::from(rest.one()?),
            bytes: u32::from(rest.two()?),
            kind: u32::from(rest.one()?),
            skipped: u32::from(rest.two()?),
            consumed: u32::from(rest.two()?),
            first: u32::from(rest.two()?),
            second: u32::from(rest.two()?),
        };
        Some(SingleCall {
            place,
            first_len,
            second_len,
            answer,
            first: rest.bytes(answer.first as usize)?,
            second: rest.bytes(answer.second as usize)?,
        })
    }
}

impl SingleCall<'_> {
    // What the call answers, with as much of each buffer as is recorded; they hold what earlier calls left in them.
    fn call(&self, document: &[u8], areas: &mut Areas) -> Option<Taken> {
        let first = areas.first.get_mut(..self.first_len)?;
        let second = areas.second.get_mut(..self.second_len)?;
        Some(rst_take_link(document, self.place, first, second))
    }

    // Whether the call answers what is recorded, and the buffers begin with the strings recorded.
    pub fn agrees(&self, document: &[u8], areas: &mut Areas) -> bool {
        self.call(document, areas) == Some(self.answer)
            && areas.first.starts_with(self.first)
            && areas.second.starts_with(self.second)
    }
}
