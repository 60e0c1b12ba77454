// Copies of bytes, one by one: the library's `copy_from_slice` would be compiled to a call of memmove, which the archive for C is not to
// need.
ghost use Rattle.std.specs.Prelude.{◌≡◌, ◌≤◌, ◌++◌, length, drop};

// Puts the bytes of s at the front of d, which has room for them.
pub fn copy(s: &[u8], d: &mut [u8])
    requires { length s.now ≤ length d.old }
    ensures { d.new ≡ s.now ++ drop (length s.now) d.old }
{
    for i in 0..s.len() {
        d[i] = s[i];
    }
}
