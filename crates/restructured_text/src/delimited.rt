// A part between two tags, and what a text ends with.
ghost use Rattle.std.specs.Prelude.{◌≡◌};
ghost use Rattle.restructured_text.specs.Delimited.{delimited_of, ends_with, closing, backticked_of};

use rst_bytes::escaped::escaped;
use rst_bytes::tag::tag;

// How many bytes `escaped` takes, up to p or q, between the bytes `left` at the front and the bytes `right` after them.
#[tactic(auto, using(crate::proofs::Bounds::bounds), unfolding(crate::specs::Delimited::delimited_of))]
pub fn delimited(s: &[u8], left: &[u8], p: u8, q: u8, right: &[u8]) -> Option<usize>
    ensures { result ≡ delimited_of left.now p q right.now s.now }
{
    if !tag(s, left) {
        return None;
    }
    let t = &s[left.len()..];
    let n = escaped(t, p, q)?;
    tag(&t[n..], right).then_some(n)
}

// Whether the last bytes of s are those of t.
pub fn ends_with(s: &[u8], t: &[u8]) -> bool
    ensures { result ≡ ends_with t.now s.now }
{
    s.ends_with(t)
}

// What closes a backticked run: "`_", for anonymous "`__".
pub fn closing(anonym: bool) -> &'static [u8]
    ensures { result.now ≡ closing anonym }
{
    if anonym { b"`__" } else { b"`_" }
}

// How many bytes stand between a backtick at the front and what closes it.
pub fn backticked(s: &[u8], anonym: bool) -> Option<usize>
    ensures { result ≡ backticked_of anonym s.now }
{
    delimited(s, b"`", b'`', b'`', closing(anonym))
}
