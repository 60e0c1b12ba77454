// Text in which nothing begins where no line starts: bytes that are no LF and no blank, and no backtick but those of which it is known that no
// embedded link begins at them; and blanks before a byte at which no reference begins. A round finds nothing there and passes on.
ghost use Rattle.std.specs.Prelude.{◌≡◌, false, ◌≤◌, length, IfSome};
ghost use Rattle.parse.specs.Inner.{Barren, Passes, Dull, is_void};

use crate::rounds::{is_opening, plain};
use rst_bytes::free::free_front;
use rst_bytes::line::space0;
use rst_bytes::word::is_word;

// Whether no reference begins at a byte, nor behind it if it is skipped.
#[tactic(auto, unfolding(crate::specs::Inner::is_void))]
fn is_void(b: u8) -> bool
    ensures { result ≡ is_void b }
{
    b < 0x80 && !(b == b'\n' || b == b'`' || is_opening(b) || is_word(u32::from(b)))
}

// Where such bytes end from place i on: before place barren backticks are taken along, and behind it text ends where (f) stops.
fn dull_end(s: &[u8], i: usize, barren: usize) -> usize
    requires { i ≤ length s.now }
    ensures { Dull barren i result s.now }
{
    let b = i.max(barren.min(s.len()));
    let j = i + free_front(&s[i..b], b'\n', b' ', b'\t');
    if j < b {
        return j;
    }
    b + plain(&s[b..])
}

// Passes such text from place i on: the place behind it, if there is any.
pub fn pass_dull(s: &[u8], i: usize, barren: usize) -> Option<usize>
    requires inside { i ≤ length s.now }
    requires barren { Barren i barren s.now }
    ensures { IfSome result (λ j. Passes false i j s.now) }
{
    let j = dull_end(s, i, barren);
    if i < j {
        return Some(j);
    }
    let c = i + space0(&s[i..]);
    match s.get(c) {
        Some(&b) if i < c && is_void(b) => Some(dull_end(s, c, barren)),
        _ => None,
    }
}
