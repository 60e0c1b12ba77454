// Names: which are anonymous, the numbered ones, whether two are the same, and which bucket of the index one belongs to.
ghost use Rattle.std.specs.Prelude.{◌≡◌, ◌++◌, ◌≤◌, ◌<◌, ◌↔◌, IsTrue, length, drop};
ghost use Rattle.iterator.specs.Collect.{digit, is_anonymous, numbered};
ghost use Rattle.iterator.specs.Index.{bucket_of};

// Whether a name is `_`.
pub fn is_anonymous(name: &[u8]) -> bool
    ensures { result ≡ is_anonymous name.now }
{
    matches!(name, [b'_'])
}

// The last decimal digit of a number.
fn digit(n: u32) -> u8
    ensures { result ≡ digit n }
{
    b'0' + (n % 10) as u8
}

// `_` and a number, written to the front of the bytes; how many they are.
// No `write!`: its contract does not say which bytes it writes. No `InlineText`: its contract lets a number that fits be cut.
pub fn write_numbered(number: u32, bytes: &mut [u8]) -> usize
    requires few { number < 1000 }
    requires room { 4 ≤ length bytes.old }
    ensures written { bytes.new ≡ numbered number ++ drop (length (numbered number)) bytes.old }
    ensures size { result ≡ length (numbered number) }
{
    bytes[0] = b'_';
    match number {
        0..10 => {
            bytes[1] = digit(number);
            2
        }
        10..100 => {
            bytes[1] = digit(number / 10);
            bytes[2] = digit(number);
            3
        }
        _ => {
            bytes[1] = digit(number / 100);
            bytes[2] = digit(number / 10);
            bytes[3] = digit(number);
            4
        }
    }
}

// Whether two names are the same. Their last four bytes are compared first, and then eight, where they have as many, since names that are alike
// often differ in a number near the end.
pub fn same_name(a: &[u8], b: &[u8]) -> bool
    ensures { IsTrue result ↔ (a.now ≡ b.now) }
{
    a.last_chunk::<4>() == b.last_chunk::<4>()
        && a.last_chunk::<8>() == b.last_chunk::<8>()
        && a == b
}

// The bucket that a name belongs to, by all of its bytes: names that are the same belong to the same.
pub fn bucket(name: &[u8]) -> u8
    ensures { result ≡ bucket_of name.now }
{
    name.iter()
        .fold(0, |h: u8, &b| h.wrapping_mul(9).wrapping_add(b))
}
