// Work areas, zeroed. By loops of our own: the library's `fill` stores the last place apart from the others, and a place beyond what is lent
// would be written without a word of the sanitizers that the archive's tests use.
//
// The work bytes are mostly zero before: the last call left them so, and a short note uses few. So they are looked at by parts, which takes
// less time than writing, and a part is written only if it holds something. Not so the work numbers: there are fewer of them, and
// even a short note writes in parts that lie apart, so looking first would save nothing.
ghost use Rattle.std.specs.Prelude.{◌≡◌, ◌↔◌, IsTrue, length, replicate};

// The bytes of a part: so few that the machine code looks at one without a loop, and so many that the parts are few.
const PART: usize = 512;

// Zero in each place.
pub fn clear<T: Copy>(area: &mut [T], zero: T)
    ensures { area.new ≡ replicate (length area.old) zero }
{
    for i in 0..area.len() {
        area[i] = zero;
    }
}

// Whether each byte is zero. All bytes are looked at, whatever was found: so many are compared at once.
fn is_zero(part: &[u8]) -> bool
    ensures { IsTrue result ↔ (part.now ≡ replicate (length part.now) 0) }
{
    part.iter().fold(true, |is, &b| is & (b == 0))
}

// Zero in each byte of a part, which is written only if it holds something.
fn clear_part(part: &mut [u8])
    ensures { part.new ≡ replicate (length part.old) 0 }
{
    if is_zero(part) {
        return;
    }
    clear(part, 0);
}

// Zero in each byte, by parts, from the end on: what is looked at last, and so is in the cache for the next call, is the front, which that
// uses. The part at the end is written whatever it holds: so the sanitizers tell of a length that is greater than what is lent.
pub fn clear_bytes(bytes: &mut [u8])
    ensures { bytes.new ≡ replicate (length bytes.old) 0 }
{
    let parts = bytes.len().saturating_sub(1) / PART;
    clear(&mut bytes[parts * PART..], 0);
    for k in (0..parts).rev() {
        clear_part(&mut bytes[k * PART..k * PART + PART]);
    }
}
