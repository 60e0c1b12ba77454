// The two transforms, each in place: the lent part holds the raw text, and its front then the transformed one.
ghost use Rattle.std.specs.Prelude.{◌≡◌};
ghost use Rattle.rst_bytes.specs.Line.{bytes_from, is_multispace};
ghost use Rattle.restructured_text.specs.Inner.{is_bare};
ghost use Rattle.restructured_text.specs.Transform.{
  is_destination_escapable,
  gives,
  unescaped_of,
  kept_of,
  text_of,
  destination_of,
  bytes_of,
  over,
  Leaves,
};

use rst_bytes::escaped::is_escapable;
use rst_bytes::free::free_front;
use rst_bytes::line::is_multispace;

// What a backslash may stand before in a destination: space, ':', backtick, '<', '>', backslash.
#[tactic(auto, unfolding(crate::specs::Transform::is_destination_escapable))]
pub fn is_destination_escapable(b: u8) -> bool
    ensures { result ≡ is_destination_escapable b }
{
    matches!(b, b' ' | b':' | b'`' | b'<' | b'>' | b'\\')
}

// Whether an escaped byte stands for itself: a space only if it is to be kept.
#[tactic(auto, unfolding(crate::specs::Transform::gives))]
fn gives_itself(keep: bool, b: u8) -> bool
    ensures { result ≡ gives keep b }
{
    b != b' ' || keep
}

// Whether b is space, tab, CR or LF. Above a space, as most bytes are, none is.
#[tactic(auto, unfolding(rst_bytes::specs::Line::is_space, rst_bytes::specs::Line::is_multispace))]
fn is_whitespace(b: u8) -> bool
    ensures { result ≡ is_multispace b }
{
    b <= b' ' && is_multispace(b)
}

// How many bytes at the front are neither a backslash nor whitespace: what no transform changes.
fn bare(d: &[u8]) -> usize
    ensures { result ≡ bytes_from is_bare 0 d.now }
{
    let n = free_front(d, b'\\', b' ', b'\t');
    free_front(&d[..n], b'\r', b'\n', b'\n')
}

// An escaped character stands for itself; an escaped space for a space if `keep`, else for nothing.
fn unescape(d: &mut [u8], keep: bool) -> Option<usize>
    ensures { Leaves (unescaped_of keep d.old) d.old d.new result }
{
    let front = free_front(d, b'\\', b'\\', b'\\');
    let mut i = front;
    let mut n = front;
    // No `for`: an escape takes two bytes, and what is read is written over.
    while i < d.len() {
        let b = d[i];
        if b == b'\\' {
            let e = *d.get(i + 1)?;
            if !is_escapable(e) {
                return None;
            }
            if gives_itself(keep, e) {
                d[n] = e;
                n += 1;
            }
            i += 2;
        } else {
            d[n] = b;
            n += 1;
            i += 1;
        }
    }
    Some(n)
}

// Drops unescaped space, tab, CR and LF, and keeps escapes as they are. Not one function with `unescape`: what may be escaped, what an
// escape leaves (one byte or none there, both here) and what a plain byte leaves would be three closures with their clauses.
fn remove_whitespace(d: &mut [u8]) -> Option<usize>
    ensures { Leaves (kept_of d.old) d.old d.new result }
{
    let front = bare(d);
    let mut i = front;
    let mut n = front;
    // No `for`: an escape takes two bytes, and what is read is written over.
    while i < d.len() {
        let b = d[i];
        if b == b'\\' {
            let e = *d.get(i + 1)?;
            if !is_destination_escapable(e) {
                return None;
            }
            d[n] = b;
            d[n + 1] = e;
            n += 2;
            i += 2;
        } else {
            if !is_whitespace(b) {
                d[n] = b;
                n += 1;
            }
            i += 1;
        }
    }
    Some(n)
}

// The text transform.
#[tactic(auto, unfolding(crate::specs::Transform::text_of))]
pub fn rst_escaped_link_text_transform(d: &mut [u8]) -> Option<usize>
    ensures { Leaves (text_of d.old) d.old d.new result }
{
    unescape(d, false)
}

// The destination transform.
pub fn rst_escaped_link_destination_transform(d: &mut [u8]) -> Option<usize>
    ensures { Leaves (destination_of d.old) (over (bytes_of (kept_of d.old)) d.old) d.new result }
{
    let n = remove_whitespace(d)?;
    unescape(&mut d[..n], true)
}
