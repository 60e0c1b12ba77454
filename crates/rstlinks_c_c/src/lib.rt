// The two public calls for C, as include/rstlinks.h says them: `rstlinks_c` under the names that C callers link, and with the same
// clauses.
#![tactic(auto)]

ghost use Rattle.std.specs.Prelude.{◌≡◌};
ghost use Rattle.parse.specs.Single.{single_of};
ghost use Rattle.iterator.specs.Document.{answer_of, document_of, verdict};
ghost use Rattle.rstlinks_c.specs.Taken.{taken};

use iterator::Outcome;
use rstlinks_c::Taken;

// The first link of the document from a place on.
#[unsafe(no_mangle)]
pub extern "C" fn rst_take_link(
    document: &[u8],
    place: usize,
    first: &mut [u8],
    second: &mut [u8],
) -> Taken
    ensures { taken result first.new second.new ≡ single_of document.now place first.old second.old }
{
    rstlinks_c::rst_take_link(document, place, first, second)
}

// All links of the document, resolved, as records.
#[unsafe(no_mangle)]
pub extern "C" fn rst_document(
    document: &[u8],
    render: u32,
    numbers: &mut [u32],
    bytes: &mut [u8],
    output: &mut [u8],
) -> Outcome
    ensures { answer_of (verdict result output.new) numbers.new bytes.new ≡ document_of document.now render numbers.old bytes.old output.old }
{
    rstlinks_c::rst_document(document, render, numbers, bytes, output)
}
