// parsers.bin: answers of the parsers.

use crate::records::Record;
use crate::rest::Rest;
use pieces::parser::rst_parser;

// What a parser answers. The strings stand in the input for the parsers that give raw parts, and else in the scratch.
#[derive(Clone, Copy)]
pub struct Parser<'a> {
    number: usize,
    scratch_len: usize,
    input: &'a [u8],
    accepted: usize,
    first: &'a [u8],
    second: &'a [u8],
    consumed: usize,
}

impl<'a> Record<'a> for Parser<'a> {
    fn read(rest: &mut Rest<'a>) -> Option<Self> {
        let number = usize::from(rest.one()?);
        let scratch_len = usize::from(rest.two()?);
        let input_len = usize::from(rest.two()?);
        let input = rest.bytes(input_len)?;
        let accepted = usize::from(rest.one()?);
        let first_len = usize::from(rest.two()?);
        let second_len = usize::from(rest.two()?);
        Some(Parser {
            number,
            scratch_len,
            input,
            accepted,
            first: rest.bytes(first_len)?,
            second: rest.bytes(second_len)?,
            consumed: usize::from(rest.two()?),
        })
    }
}

// The part of an area that starts at a place: the answer, which C reads, names it by numbers.
fn part(area: &[u8], start: usize, len: usize) -> Option<&[u8]> {
    area.get(start..)?.get(..len)
}

impl Parser<'_> {
    // Whether the parser answers what is recorded, with as much of the scratch as is recorded.
    pub fn agrees(&self, scratch: &mut [u8]) -> bool {
        let Some(lent) = scratch.get_mut(..self.scratch_len) else {
            return false;
        };
        let answer = rst_parser(self.number, self.input, lent);
        let area = if self.number < 9 { self.input } else { &*lent };
        answer.accepted == self.accepted
            && answer.consumed == self.consumed
            && part(area, answer.first, answer.first_len) == Some(self.first)
            && part(area, answer.second, answer.second_len) == Some(self.second)
    }
}
