// `trim_end`: the front part up to the last character that is not blank.
ghost use Rattle.std.specs.Prelude.{◌≡◌, take};
ghost use Rattle.rst_bytes.specs.Trim.{trim_of};

// The text without the blank characters at its end, read from the end: U+0009 to 000D, 0020, 0085, 00A0.
#[tactic(auto, using(crate::proofs::TrimLaws::whole))]
pub fn trim_end(s: &[u8]) -> &[u8]
    ensures { result.now ≡ take (trim_of s.now) s.now }
{
    let mut text = s;
    // No `for`: a character takes one byte or two.
    while let [front @ .., 0x09..=0x0D | b' '] | [front @ .., 0xC2, 0x85 | 0xA0] = text {
        text = front;
    }
    text
}
