// pieces.bin: answers of the bytes layer.

use crate::records::Record;
use crate::rest::Rest;
use pieces::{Answer, rst_piece};

// What a piece answers.
#[derive(Clone, Copy)]
pub struct Piece<'a> {
    number: usize,
    parameter: usize,
    input: &'a [u8],
    answer: Answer,
}

impl<'a> Record<'a> for Piece<'a> {
    fn read(rest: &mut Rest<'a>) -> Option<Self> {
        let number = usize::from(rest.one()?);
        let parameter = usize::from(rest.one()?);
        let len = usize::from(rest.two()?);
        let input = rest.bytes(len)?;
        let answer = Answer {
            accepted: usize::from(rest.one()?),
            value: usize::from(rest.two()?),
            point: rest.four()? as usize,
        };
        Some(Piece {
            number,
            parameter,
            input,
            answer,
        })
    }
}

impl Piece<'_> {
    // Whether the piece answers what is recorded.
    pub fn agrees(&self) -> bool {
        rst_piece(self.number, self.parameter, self.input) == self.answer
    }
}
