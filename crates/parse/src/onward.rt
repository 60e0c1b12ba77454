// What a scan hands on to the next, which starts behind the link and counts places from there.
ghost use Rattle.std.specs.Prelude.{◌≡◌, List, ℕ};
ghost use Rattle.std.specs.Option.{ok_or};
ghost use Rattle.parse.specs.Inner.{known_from, EndsWithin, HoldsBehind, TrueBehind};

use crate::{Known, Link};
use restructured_text::ParseError;

impl Known {
    // What is known, with places counted from place n on.
    fn behind(self, n: usize) -> Known
        ensures { result ≡ known_from n self }
    {
        Known {
            shut: self.shut.saturating_sub(n),
            barren: self.barren.saturating_sub(n),
            blocks: self.blocks.saturating_sub(n),
            failed: self.failed,
            marked: self.marked.saturating_sub(n),
        }
    }
}

// What was found as a scan's answer, and what is known of the text behind it, with whatever marks.
pub fn next_of(s: &[u8], found: Option<Link>, known: &mut Known) -> Result<Link, ParseError>
    requires { EndsWithin s.now found }
    ensures scan { result ≡ ok_or found ParseError.NotFound }
    ensures known { (marks : List ℕ) → HoldsBehind s.now known.old marks found → TrueBehind s.now marks known.new result }
{
    let link = found.ok_or(ParseError::NotFound)?;
    let (_, _, skipped, consumed) = link.parts();
    *known = known.behind(skipped + consumed);
    Ok(link)
}
