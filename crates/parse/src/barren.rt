// Backticks at which no embedded link begins. A part that runs to its close passes escaped backticks only, and from each of these a part
// would run to the same close. Up to the first `<` it would also have the same target and a text that ends alike: so where the
// first backtick begins no link, none of them does. Where no `<` stands before the close none begins, nor where no `>` stands at it, and where two
// `<` do none begins before the first: so no part is tried more than twice.
ghost use Rattle.std.specs.Prelude.{◌≡◌, true, false, ◌≤◌, ◌<◌, length, get_or, IfSome};
ghost use Rattle.rst_bytes.specs.Escaped.{taking};
ghost use Rattle.parse.specs.Inner.{NoLink, Barren, Opened, RunsTo};

use rst_bytes::escaped::escaped;
use rst_bytes::free::is_stop;

// How many bytes stand before the first unescaped backtick or `<`: all of them where none stands; and nothing where a wrong escape comes
// first. `escaped` of `rst_bytes` refuses where one of these stands at the front. What it calls says the same as this, but a public one
// would be one more promise of that crate, for this caller alone.
fn marked(s: &[u8]) -> Option<usize>
    ensures { result ≡ taking 0x60 0x3C false 0 s.now }
{
    match s.first() {
        Some(&b) if is_stop(b'`', b'<', b) => Some(0),
        _ => escaped(s, b'`', b'<'),
    }
}

// A place before which no backtick begins an embedded link, for a text that begins with a backtick, whose part is closed at place n: if the part
// does not end in `>`, or has no unescaped `<`.
pub fn unlinked(s: &[u8], n: usize) -> Option<usize>
    requires tick { (0 < length s.now) × (get_or s.now 0 0 ≡ 0x60) }
    requires closed { (0 < n) × (n < length s.now) × RunsTo n s.now }
    ensures { IfSome result (λ m. (0 < m) × (m ≤ length s.now) × Barren 0 m s.now) }
{
    if s[n - 1] != b'>' {
        return Some(n);
    }
    match marked(&s[1..]) {
        Some(m) if s.get(m + 1) == Some(&b'`') => Some(m + 1),
        _ => None,
    }
}

// Whether the first unescaped backtick or `<` is `<`.
fn is_opened(s: &[u8]) -> bool
    ensures { result ≡ true → Opened s.now }
{
    marked(s).is_some_and(|n| s.get(n) == Some(&b'<'))
}

// A place before which no backtick begins an embedded link, whatever stands before the text: behind each of them no unescaped `<` stands
// before the close, or two do.
fn unbracketed(s: &[u8]) -> usize
    ensures within { result ≤ length s.now }
    ensures barren { Barren 0 result s.now }
{
    let mut i = 0;
    // No `for`: a turn takes as many bytes as stand before the next `<`. An iterator over such turns would hold this loop, behind one more
    // contract.
    while i < s.len() {
        match marked(&s[i..]) {
            Some(n) => {
                let j = i + n;
                match s.get(j) {
                    Some(b'`') => return j,
                    Some(_) if is_opened(&s[j + 1..]) => i = j + 1,
                    _ => return i,
                }
            }
            None => return i,
        }
    }
    i
}

// A place before which no backtick begins one, where none begins at the first byte, a backtick.
pub fn barren(s: &[u8]) -> usize
    requires tick { (0 < length s.now) × (get_or s.now 0 0 ≡ 0x60) }
    requires none { NoLink s.now }
    ensures within { result ≤ length s.now }
    ensures barren { Barren 0 result s.now }
{
    match marked(&s[1..]) {
        Some(n) => {
            let j = n + 1;
            if s.get(j) == Some(&b'<') {
                j + 1 + unbracketed(&s[j + 1..])
            } else {
                j
            }
        }
        None => 0,
    }
}
