// What the document call answered, written to standard output.
ghost use Rattle.std.specs.Prelude.{◌≡◌, ◌≤◌, ◌+◌, ◌++◌, length, take, None};
ghost use Rattle.std.specs.Io.KnownBytes.{Keeps};

use crate::links::Links;
use iterator::Outcome;
use std::io::{self, Write};

// How many bytes of a line are written at once.
const BUFFER_LEN: usize = 16384;

// The bytes of a line that are not yet written.
#[derive(Drop)]
struct Line<'a, R> {
    rt: &'a R,
    bytes: [u8; BUFFER_LEN],
    len: usize,
    ghost fits: { len ≤ 16384 },
}

impl<R: Print> Line<'_, R> {
    // Puts bytes behind those that are not yet written.
    fn push(&mut self, part: &[u8])
        requires { self.old.len + length part.now ≤ 16384 }
        ensures len { self.new.len ≡ self.old.len + length part.now }
        ensures bytes { take self.new.len self.new.bytes ≡ take self.old.len self.old.bytes ++ part.now }
    {
        let end = self.len + part.len();
        self.bytes[self.len..end].copy_from_slice(part);
        self.len = end;
    }
}

impl<R: Print> Write for Line<'_, R> {
    fn write(&mut self, buf: &[u8]) -> io::Result<usize> {
        self.write_all(buf)?;
        Ok(buf.len())
    }

    // std's would try again where signals cut a write short, and leave out the bytes that were to be written.
    fn write_all(&mut self, buf: &[u8]) -> io::Result<()> {
        for part in buf.chunks(BUFFER_LEN) {
            if BUFFER_LEN - self.len < part.len() {
                self.flush()?;
            }
            self.push(part);
        }
        Ok(())
    }

    fn flush(&mut self) -> io::Result<()>
        ensures bytes { Keeps None None }
        ensures emptied { self.new.len ≡ 0 }
    {
        let len = self.len;
        self.len = 0;
        self.rt.write_all(&self.bytes[..len])
    }
}

// The lines of the links that records hold.
fn lines(rt: &impl Print, records: &[u8]) -> io::Result<()>
    requires { length records.now ≤ 65536 }
{
    let mut line = Line {
        rt,
        bytes: [0; BUFFER_LEN],
        len: 0,
    };
    for link in (Links { records, end: 0 }) {
        writeln!(line, "{link}")?;
        line.flush()?;
    }
    Ok(())
}

// A call's answer, with the output that it left.
pub fn outcome(rt: &impl Print, r: Outcome, output: &[u8]) -> io::Result<()>
    requires { length output.now ≤ 65536 }
{
    let Outcome {
        number,
        links,
        bytes,
    } = r;
    // 0 is accepted: the program calls what C calls.
    if number != 0 {
        return println!(rt; "refused {number}");
    }
    println!(rt; "links {links}")?;
    // Never: the records stand in the output.
    let Some(records) = output.get(..bytes as usize) else {
        return Ok(());
    };
    lines(rt, records)
}
