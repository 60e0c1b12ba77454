// Text in which no link starts. A link has a `_` on the line where it starts, or begins with a backtick: so lines without either are
// passed at once, and no round is made in them. A link that is no block has it in the word where it starts: so on the line of the next
// `_` or backtick the words before that one are passed too, where no block begins with the line.
ghost use Rattle.std.specs.Prelude.{◌≡◌, Bool, true, false, ◌-◌, ◌≤◌, ◌<◌, length, get_or, IfSome};
ghost use Rattle.rst_bytes.specs.Line.{is_space};
ghost use Rattle.parse.specs.Scan.{is_plain, is_lf};
ghost use Rattle.parse.specs.Inner.{Barren, Behind, LineStart, Passes};

use crate::dull::pass_dull;
use crate::rounds::{is_start, newlines};
use memchr::{memchr2, memrchr};
use restructured_text::target::starts_target;
use rst_bytes::free::free_front;
use rst_bytes::line::is_space;

// Whether place j is behind another byte than those at which (f) stops.
fn is_behind(s: &[u8], j: usize) -> bool
    requires { j < length s.now }
    ensures { result ≡ true → (0 < j) × (is_plain (get_or s.now (j - 1) 0) ≡ true) }
{
    0 < j && !is_start(s[j - 1])
}

// Whether a line ends at place j: LF stands there, behind such a byte.
fn ends_line(s: &[u8], j: usize) -> bool
    requires { j < length s.now }
    ensures { result ≡ true → Behind is_lf j s.now }
{
    s[j] == b'\n' && is_behind(s, j)
}

// Whether a word ends at place j: a blank stands there, behind such a byte.
fn ends_word(s: &[u8], j: usize) -> bool
    requires { j < length s.now }
    ensures { result ≡ true → Behind is_space j s.now }
{
    is_space(s[j]) && is_behind(s, j)
}

// The last place between i and k at which a line ends. The last LF is looked for many bytes at a time.
fn last_line(s: &[u8], i: usize, k: usize) -> Option<usize>
    requires { (i ≤ k) × (k ≤ length s.now) }
    ensures { IfSome result (λ j. (i < j) × (j ≤ k) × Behind is_lf j s.now) }
{
    let n = memrchr(b'\n', &s[i..k])?;
    (i + 1..i + n + 1).rev().find(|&j| ends_line(s, j))
}

// The last one at which a word ends. It is no instance of a function that takes the test, nor is `ends_word` one: what that would ask of the
// test and say of it is longer than both.
fn last_word(s: &[u8], i: usize, k: usize) -> Option<usize>
    requires { (i ≤ k) × (k ≤ length s.now) }
    ensures { IfSome result (λ j. (i < j) × (j ≤ k) × Behind is_space j s.now) }
{
    (i + 1..k).rev().find(|&j| ends_word(s, j))
}

// How many LFs stand at the front, if there are none or no target starts behind them.
#[tactic(auto, using(crate::proofs::CalmLaws::lfs_within, crate::proofs::BarredLaws::unstarted))]
fn line_start(s: &[u8]) -> Option<usize>
    ensures { IfSome result (λ n. LineStart n s.now) }
{
    match newlines(s) {
        0 => Some(0),
        n if starts_target(&s[n..]) => None,
        n => Some(n),
    }
}

// What was looked for: the places up to which there is no other line, and no other word, to pass.
#[derive(Clone, Copy, Default)]
pub struct Calm {
    lines: usize,
    words: usize,
}

impl Calm {
    // Passes the lines from place i on that have neither `_` nor backtick: the place behind them, if there are any.
    fn pass_lines(&mut self, s: &[u8], i: usize) -> Option<usize>
        requires { i ≤ length s.now }
        ensures { IfSome result (λ j. (start : Bool) → Passes start i j s.now) }
    {
        match memchr2(b'_', b'`', &s[i..]) {
            Some(n) => {
                let k = i + n;
                self.lines = k + 1;
                last_line(s, i, k)
            }
            None => {
                self.lines = s.len();
                Some(s.len())
            }
        }
    }

    // Passes the words from place i on that stand before that of the next `_` or backtick, or before the last one of the line; of the next line,
    // if LF stands at i and no target starts there.
    fn pass_words(&mut self, s: &[u8], i: usize) -> Option<usize>
        requires { i ≤ length s.now }
        ensures { IfSome result (λ j. Passes false i j s.now) }
    {
        let a = i + line_start(&s[i..])?;
        let k = a + free_front(&s[a..], b'_', b'`', b'\n');
        self.words = k;
        last_word(s, a, k)
    }

    // Passes lines from place i on, or else words, where i is no start: the place behind them, if there are any. Neither is looked for where
    // an earlier call found that there is none before a later place. Where it is known of backticks that no embedded link begins at them, other
    // text may be passed before.
    pub fn pass(&mut self, s: &[u8], i: usize, start: bool, barren: usize) -> Option<usize>
        requires inside { i ≤ length s.now }
        requires barren { Barren i barren s.now }
        ensures { IfSome result (λ j. Passes start i j s.now) }
    {
        if i < barren && !start {
            if let Some(next) = pass_dull(s, i, barren) {
                return Some(next);
            }
        }
        if matches!(s.get(i), Some(b'_' | b'`')) {
            return None;
        }
        if self.lines <= i {
            if let Some(next) = self.pass_lines(s, i) {
                return Some(next);
            }
        }
        if start || i < self.words {
            return None;
        }
        self.pass_words(s, i)
    }
}
