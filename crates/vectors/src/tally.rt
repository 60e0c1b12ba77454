// How many answers are recorded, and how many agree.

ghost use Rattle.std.specs.Prelude.{◌≡◌, ◌+◌, min, if◌then◌else◌, Some};
ghost use Rattle.vectors.specs.Tally.{counts};

use std::fmt;

#[derive(Clone, Copy, Default)]
pub struct Tally {
    pub recorded: usize,
    pub agree: usize,
}

impl Tally {
    // One more answer.
    pub fn add(&mut self, agrees: bool)
        ensures recorded { self.new.recorded ≡ min (self.old.recorded + 1) usize.MAX }
        ensures agree { self.new.agree ≡ min (self.old.agree + (if agrees then 1 else 0)) usize.MAX }
    {
        self.recorded = self.recorded.saturating_add(1);
        self.agree = self.agree.saturating_add(usize::from(agrees));
    }
}

impl fmt::Display for Tally {
    ghost output = { λ t. Some (counts t) };

    fn fmt<W: fmt::Write>(&self, f: &mut fmt::Formatter<W>) -> fmt::Result {
        let Tally { recorded, agree } = *self;
        write!(f, "{recorded} recorded, {agree} agree")
    }
}
