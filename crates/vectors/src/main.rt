// Replays the recorded answers of the Rust on the proved functions, and writes how many agree. data/README.md says what is
// recorded and how it was made.
#![tactic(auto)]

mod areas;
mod document;
mod documents;
mod parser;
mod piece;
mod records;
mod rest;
mod single;
mod tally;

ghost use Rattle.std.specs.Prelude.{◌≤◌, length, IfOk};

use crate::areas::Areas;
use crate::documents::Tallies;
use crate::parser::Parser;
use crate::piece::Piece;
use crate::records::Records;
use crate::rest::Rest;
use crate::tally::Tally;
use filling::read_full;
use std::rt::Files;
use std::{fs, io};

// Reads a file, as far as the buffer holds it: the count that the buffer begins with, and what follows it in the file. Where the file ends within
// the count, the buffer tells its last bytes.
fn load<'a, R: Files>(rt: &R, name: &str, buf: &'a mut [u8]) -> io::Result<(usize, Rest<'a>)>
    ensures { IfOk result (λ p. length p.1.left.now ≤ length buf.old) }
{
    let mut file = fs::open(rt, name)?;
    let n = read_full(&mut file, buf)?;
    let recorded = Rest { left: buf }.four().unwrap_or(0) as usize;
    let left = buf[..n].get(4..).unwrap_or(&[]);
    Ok((recorded, Rest { left }))
}

// The pieces' answers.
fn replay_pieces<R: Files + Print>(rt: &R, buf: &mut [u8]) -> io::Result<()> {
    let (recorded, rest) = load(rt, "pieces.bin", buf)?;
    let agree = Records::from(rest).filter(Piece::agrees).count();
    let tally = Tally { recorded, agree };
    println!(rt; "pieces: {tally}")
}

// The parsers' answers; the scratch is as long as any that is recorded. Not one function with the pieces': it would be lent the test as
// a closure, with the kind of record, the file and the word as parameters, which is as long as both.
fn replay_parsers<R: Files + Print>(rt: &R, buf: &mut [u8]) -> io::Result<()> {
    let (recorded, rest) = load(rt, "parsers.bin", buf)?;
    let mut scratch = [0; 4096];
    let agree = Records::from(rest)
        .filter(|parser: &Parser| parser.agrees(&mut scratch))
        .count();
    let tally = Tally { recorded, agree };
    println!(rt; "parsers: {tally}")
}

// The answers of both calls.
fn replay_calls<R: Files + Print>(rt: &R, buf: &mut [u8]) -> io::Result<()> {
    let (_, rest) = load(rt, "documents.bin", buf)?;
    let Tallies { singles, documents } = documents::replay(rest, &mut Areas::default());
    println!(rt; "single-link calls: {singles}")?;
    println!(rt; "document calls: {documents}")
}

// All of them, one file after the other.
fn replay_all<R: Files + Print>(rt: &R, buf: &mut [u8]) -> io::Result<()> {
    replay_pieces(rt, buf)?;
    replay_parsers(rt, buf)?;
    replay_calls(rt, buf)
}

// A fixed buffer for the files: with a heap, C's functions for it would be trusted too.
fn main(rt: HostRuntime) -> io::Result<()> {
    replay_all(&rt, &mut [0; 655360])
}
