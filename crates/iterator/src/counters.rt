// Both anonymous counters, in one value that hands itself back.
ghost use Rattle.std.specs.Prelude.{◌≡◌, ◌≤◌};
ghost use Rattle.iterator.specs.Inner.{reference_numbered, target_numbered};

// How many references, and how many blocks, were numbered.
#[derive(Clone, Copy, Debug, Default, PartialEq, Eq)]
pub struct Counters {
    pub references: u32,
    pub targets: u32,
}

// The two methods are the form that document 01 names.
impl Counters {
    // The next reference's number, and the counters after it.
    pub fn next_reference(mut self) -> (u32, Self)
        requires { self.references ≤ 256 }
        ensures { result ≡ reference_numbered self }
    {
        self.references += 1;
        (self.references, self)
    }

    // The next block's number, and the counters after it.
    pub fn next_target(mut self) -> (u32, Self)
        requires { self.targets ≤ 256 }
        ensures { result ≡ target_numbered self }
    {
        self.targets += 1;
        (self.targets, self)
    }
}
