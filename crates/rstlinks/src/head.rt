// The first eight bytes of a record: "four 15-bit fields, most significant bit first: skipped .., consumed, text length, destination
// length; four zero bits".
ghost use Rattle.std.specs.Prelude.{◌≤◌, ◌≡◌, length};
ghost use Rattle.rstlinks.specs.Head.{head_of, Small};

// The four fields.
#[derive(Clone, Copy)]
pub struct Head {
    pub skipped: usize,
    pub consumed: usize,
    pub text: usize,
    pub dest: usize,
}

// The fields of the record that starts at the front: of a slice, which asks less than an array of eight bytes.
pub fn read_head(s: &[u8]) -> Head
    requires { 8 ≤ length s.now }
    ensures fields { result ≡ head_of s.now }
    ensures small { Small result }
{
    let v = u64::from_be_bytes(*s.first_chunk().unwrap());
    Head {
        skipped: (v >> 49) as usize,
        consumed: (v >> 34 & 0x7FFF) as usize,
        text: (v >> 19 & 0x7FFF) as usize,
        dest: (v >> 4 & 0x7FFF) as usize,
    }
}
