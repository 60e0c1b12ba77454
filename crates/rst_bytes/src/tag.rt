// `tag`: whether a part begins with given bytes.
ghost use Rattle.std.specs.Prelude.{◌≡◌};
ghost use Rattle.rst_bytes.specs.Tag.{starts_with};

// Whether s begins with the bytes of t. All bytes of t are looked at, whatever was found: so they are compared many at once. Not by the
// library's `starts_with`: it stays a call, also for a tag of few bytes, and notes, where the bar for a short one leaves nothing, took 2 to 4 in 100
// instructions more.
pub fn tag(s: &[u8], t: &[u8]) -> bool
    ensures { result ≡ starts_with t.now s.now }
{
    if s.len() < t.len() {
        return false;
    }
    s[..t.len()]
        .iter()
        .zip(t)
        .fold(true, |same, (b, c)| same & (b == c))
}
