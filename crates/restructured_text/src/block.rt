// `rst_explicit_markup_block`: the text of a block that starts with `.. ` or `__ `, its lines joined by one space.
//
// The steps stand in the order of the specification: the start with the blank after it, the first line, the relative indent of
// later lines, the end.
ghost use Rattle.std.specs.Prelude.{◌≡◌, ◌≤◌, length, take};
ghost use Rattle.restructured_text.specs.Block.{start_of, cut_of, further_of, lines_of, block_of, block_in, lent_block};

use crate::ParseError;
use rst_bytes::copy::copy;
use rst_bytes::line::{line_ending, not_line_ending, space0};
use rst_bytes::tag::tag;

// How much was joined: how many bytes were written, and how many were read.
#[derive(Clone, Copy)]
struct Lines {
    len: usize,
    read: usize,
}

// The start: how many bytes the indent and the header after it take.
#[tactic(auto, using(crate::proofs::Bounds::bounds), unfolding(crate::specs::Block::start_of))]
fn block_start(s: &[u8], header: &[u8]) -> Option<usize>
    ensures { result ≡ start_of header.now s.now }
{
    let a = space0(s);
    if tag(&s[a..], header) {
        Some(a + header.len())
    } else {
        None
    }
}

// The relative indent of a later line: how many bytes the end of the line before, the indent and three spaces take.
#[tactic(auto, using(crate::proofs::Bounds::bounds), unfolding(crate::specs::Block::cut_of))]
fn line_start(s: &[u8], indent: &[u8]) -> Option<usize>
    ensures { result ≡ cut_of indent.now s.now }
{
    let k = line_ending(s)?;
    let t = &s[k..];
    let spaces = b"   ";
    if tag(t, indent) && tag(&t[indent.len()..], spaces) {
        Some(k + indent.len() + spaces.len())
    } else {
        None
    }
}

// The further line that stands behind a line's text: how many bytes stand before its own text, and the length of that.
#[tactic(auto, using(crate::proofs::Bounds::bounds), unfolding(crate::specs::Block::further_of))]
fn further_line(s: &[u8], indent: &[u8]) -> Option<(usize, usize)>
    ensures { result ≡ further_of indent.now s.now }
{
    let a = line_start(s, indent)?;
    let n = not_line_ending(&s[a..])?;
    Some((a, n))
}

// Joins the further lines, at the front of d.
#[tactic(auto, using(crate::proofs::Bounds::bounds))]
fn join_lines(s: &[u8], indent: &[u8], d: &mut [u8]) -> Lines
    requires { length s.now ≤ length d.old }
    ensures len { result.len ≡ length (lines_of indent.now 0 s.now).text }
    ensures read { result.read ≡ (lines_of indent.now 0 s.now).read }
    ensures text { take result.len d.new ≡ (lines_of indent.now 0 s.now).text }
{
    let mut rest = s;
    let mut n = 0;
    // No `for`: a further line says where the next one may stand.
    while let Some((a, len)) = further_line(rest, indent) {
        d[n] = b' ';
        n += 1;
        copy(&rest[a..a + len], &mut d[n..]);
        n += len;
        rest = &rest[a + len..];
    }
    Lines {
        len: n,
        read: s.len() - rest.len(),
    }
}

// The block with this header: the length of its text, which stands in the scratch then, and how many bytes it consumed.
#[tactic(auto, using(crate::proofs::Bounds::bounds))]
pub fn rst_explicit_markup_block(
    s: &[u8],
    header: &[u8],
    scratch: &mut [u8],
) -> Result<(usize, usize), ParseError>
    ensures { block_in result scratch.new ≡ lent_block s.now scratch.old (block_of header.now s.now) }
{
    if scratch.len() < s.len() {
        return Err(ParseError::NoRoom);
    }
    let a = block_start(s, header).ok_or(ParseError::NotFound)?;
    let t = &s[a..];
    let n = not_line_ending(t).ok_or(ParseError::NotFound)?;
    copy(&t[..n], scratch);
    let i = space0(s);
    let lines = join_lines(&t[n..], &s[..i], &mut scratch[n..]);
    Ok((n + lines.len, a + n + lines.read))
}
