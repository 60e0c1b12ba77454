// The domain: which bytes make characters.
ghost use Rattle.std.specs.Prelude.{◌≡◌, drop};
ghost use Rattle.rst_bytes.specs.Domain.{char_of, outside_of};

// The character that starts at place i.
#[tactic(auto, unfolding(crate::specs::Domain::char_of, crate::specs::Domain::is_pair))]
pub fn char_at(s: &[u8], i: usize) -> Option<(usize, u32)>
    ensures { result ≡ char_of (drop i s.now) }
{
    let Some(&b) = s.get(i) else {
        return None;
    };
    if b < 0x80 {
        return Some((1, b as u32));
    }
    match (b, s.get(i + 1)) {
        (0xC2..=0xC8, Some(&c @ 0x80..=0xBF)) | (0xC9, Some(&c @ 0x80..=0x8F)) => {
            Some((2, (b as u32 - 0xC0) * 64 + (c as u32 - 0x80)))
        }
        _ => None,
    }
}

// Where the document leaves the domain: nowhere where every byte is below 80, else read character by character.
pub fn first_outside(s: &[u8]) -> Option<usize>
    ensures { result ≡ outside_of s.now }
{
    if s.is_ascii() {
        return None;
    }
    // No `for`: a character takes one byte or two. An iterator over characters would hold this loop, behind one more contract.
    let mut i = 0;
    while i < s.len() {
        let Some((len, _)) = char_at(s, i) else {
            return Some(i);
        };
        i += len;
    }
    None
}
