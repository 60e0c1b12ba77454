// Reads a note in reStructuredText from standard input, and writes its links, resolved: `links N`, then a line for each with its place,
// the bytes that it consumed, its text and its destination, both quoted; or `refused N`, with the number of document 01's table.
#![tactic(auto)]

mod head;
mod links;
mod quote;
mod show;

use filling::read_full;
use iterator::{BYTES_MIN, NUMBERS_MIN};
use std::io;

// One byte more than the longest document is read, so that a longer one is refused. Render 0, as document 01 has it. Fixed areas:
// no heap.
fn main(rt: HostRuntime) -> io::Result<()> {
    let mut document = [0u8; 16385];
    let n = read_full(&mut rt.stdin(), &mut document)?;
    let mut numbers = [0u32; NUMBERS_MIN];
    let mut bytes = [0u8; BYTES_MIN];
    let mut output = [0u8; 65536];
    let r = iterator::document(&document[..n], 0, &mut numbers, &mut bytes, &mut output);
    show::outcome(&rt, r, &output)
}
