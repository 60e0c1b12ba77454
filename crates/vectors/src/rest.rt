// What is left of a recorded file, read from the front. Its numbers are unsigned and big-endian.

ghost use Rattle.std.specs.Prelude.{◌≡◌, take, slice_index, IfSome, OnSome, IfNone};
ghost use Rattle.std.specs.Int.{w16, w32, from_be_bytes};
ghost use Rattle.vectors.specs.Rest.{IsBehind};

// The bytes that are left.
#[derive(Clone, Copy)]
pub struct Rest<'a> {
    pub left: &'a [u8],
}

impl<'a> Rest<'a> {
    // The next bytes, as many as are asked for; `None` where fewer are left.
    pub fn bytes(&mut self, n: usize) -> Option<&'a [u8]>
        ensures value { IfSome result (λ b. b.now ≡ take n self.old.left.now) }
        ensures rest { OnSome result (IsBehind n self.old.left.now self.new.left.now) }
        ensures none { IfNone result (self.new ≡ self.old) }
    {
        let (bytes, left) = self.left.split_at_checked(n)?;
        self.left = left;
        Some(bytes)
    }

    fn array<const N: usize>(&mut self) -> Option<[u8; N]>
        ensures value { IfSome result (λ a. a ≡ take N self.old.left.now) }
        ensures rest { OnSome result (IsBehind N self.old.left.now self.new.left.now) }
        ensures none { IfNone result (self.new ≡ self.old) }
    {
        let (array, left) = self.left.split_first_chunk()?;
        self.left = left;
        Some(*array)
    }

    // A number of one byte. Not one function with the next two: `from_be_bytes` is of no trait.
    pub fn one(&mut self) -> Option<u8>
        ensures value { IfSome result (λ v. v ≡ slice_index self.old.left.now 0) }
        ensures rest { OnSome result (IsBehind 1 self.old.left.now self.new.left.now) }
        ensures none { IfNone result (self.new ≡ self.old) }
    {
        self.array().map(u8::from_be_bytes)
    }

    // A number of two bytes.
    pub fn two(&mut self) -> Option<u16>
        ensures value { IfSome result (λ v. v ≡ from_be_bytes w16 (take 2 self.old.left.now)) }
        ensures rest { OnSome result (IsBehind 2 self.old.left.now self.new.left.now) }
        ensures none { IfNone result (self.new ≡ self.old) }
    {
        self.array().map(u16::from_be_bytes)
    }

    // A number of four bytes.
    pub fn four(&mut self) -> Option<u32>
        ensures value { IfSome result (λ v. v ≡ from_be_bytes w32 (take 4 self.old.left.now)) }
        ensures rest { OnSome result (IsBehind 4 self.old.left.now self.new.left.now) }
        ensures none { IfNone result (self.new ≡ self.old) }
    {
        self.array().map(u32::from_be_bytes)
    }
}
