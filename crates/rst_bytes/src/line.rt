// Line ends and blanks: `newline`, `line_ending`, `not_line_ending`, `space0`, `space1`, `multispace0`.
ghost use Rattle.std.specs.Prelude.{◌≡◌};
ghost use Rattle.rst_bytes.specs.Line.{
  is_space,
  is_multispace,
  newline_of,
  line_ending_of,
  not_line_ending_of,
  space0_of,
  space1_of,
  multispace0_of,
};

use crate::free::free_front;

// LF.
#[tactic(auto, unfolding(crate::specs::Line::newline_of))]
pub fn newline(s: &[u8]) -> Option<usize>
    ensures { result ≡ newline_of s.now }
{
    match s {
        [b'\n', ..] => Some(1),
        _ => None,
    }
}

// LF or CR LF.
#[tactic(auto, unfolding(crate::specs::Line::line_ending_of, crate::specs::Line::newline_of))]
pub fn line_ending(s: &[u8]) -> Option<usize>
    ensures { result ≡ line_ending_of s.now }
{
    match s {
        [b'\r', b'\n', ..] => Some(2),
        _ => newline(s),
    }
}

// The rest of the line: up to the first CR or LF or the end; refused where that is a CR without LF.
pub fn not_line_ending(s: &[u8]) -> Option<usize>
    ensures { result ≡ not_line_ending_of s.now }
{
    let i = free_front(s, b'\n', b'\r', b'\r');
    if i == s.len() {
        return Some(i);
    }
    line_ending(&s[i..])?;
    Some(i)
}

// A space or a tab.
#[tactic(auto, unfolding(crate::specs::Line::is_space))]
pub fn is_space(b: u8) -> bool
    ensures { result ≡ is_space b }
{
    matches!(b, b' ' | b'\t')
}

// A space, a tab, CR or LF.
#[tactic(auto, unfolding(crate::specs::Line::is_multispace))]
pub fn is_multispace(b: u8) -> bool
    ensures { result ≡ is_multispace b }
{
    matches!(b, b' ' | b'\t' | b'\r' | b'\n')
}

// How many spaces and tabs stand at the front.
pub fn space0(s: &[u8]) -> usize
    ensures { result ≡ space0_of s.now }
{
    s.iter().take_while(|&&b| is_space(b)).count()
}

// The same, refused where there is none.
#[tactic(auto, unfolding(crate::specs::Line::space1_of))]
pub fn space1(s: &[u8]) -> Option<usize>
    ensures { result ≡ space1_of s.now }
{
    match space0(s) {
        0 => None,
        n => Some(n),
    }
}

// How many spaces, tabs, CRs and LFs stand at the front.
pub fn multispace0(s: &[u8]) -> usize
    ensures { result ≡ multispace0_of s.now }
{
    s.iter().take_while(|&&b| is_multispace(b)).count()
}
