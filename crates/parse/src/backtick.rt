// Where a part in backticks ends, and whether it is closed there by a backtick and `_`. On its way it passes escaped backticks only, and from each of
// these a part would run to the same end: if it is not closed, none of them needs to be tried.
ghost use Rattle.std.specs.Prelude.{◌≡◌, ◌<◌, length, get_or};
ghost use Rattle.parse.specs.Inner.{PartEnds};

use rst_bytes::escaped::{escaped_front, is_escapable};

// Where the part ends that begins with the first byte, a backtick: the place of its close, a backtick before `_`; or an error, which is a place
// before which no backtick begins a part that is closed so.
pub fn part_end(s: &[u8]) -> Result<usize, usize>
    requires { (0 < length s.now) × (get_or s.now 0 0 ≡ 0x60) }
    ensures { PartEnds s.now result }
{
    let mut i = 1;
    // No `for`: an escape takes two bytes. An iterator over such units would hold this loop, behind one more contract.
    while i < s.len() {
        match s[i] {
            b'`' if s.get(i + 1) == Some(&b'_') => return Ok(i),
            b'`' => return Err(i),
            b'\\' => match s.get(i + 1) {
                Some(&c) if is_escapable(c) => {
                    i += 2;
                    i += escaped_front(&s[i..], b'`', b'`');
                }
                _ => return Err(i),
            },
            _ => {
                i += 1;
                i += escaped_front(&s[i..], b'`', b'`');
            }
        }
    }
    Err(s.len())
}
