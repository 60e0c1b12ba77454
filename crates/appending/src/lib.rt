// Appending keeps links: the claim about any two document calls.
//
// specs/Claim.antt is the claim; the one function here makes two calls and promises it of them.
#![tactic(auto)]

ghost use Rattle.std.specs.Prelude.{◌≡◌};
ghost use Rattle.iterator.specs.Document.{answer_of, document_of, verdict};
ghost use Rattle.appending.specs.Claim.{Keeps};

use iterator::Outcome;

// What two calls return.
#[derive(Clone, Copy, Debug, PartialEq, Eq)]
pub struct Both {
    pub first: Outcome,
    pub second: Outcome,
}

// Two documents, read with the same option, each call with work areas and an output of its own. The answers are those of the document
// call; and where both documents are accepted and the second is the first, one line feed and a tail, the links of the first are kept.
//
// `document_of` is the document call's definition: what is returned, the output and both work areas, by what was lent. `verdict` is what a
// call returned, with its output as it was left; `answer_of` adds both work areas. `.old` is before the calls, `.new` after them.
pub fn append_keeps(
    first: &[u8],
    second: &[u8],
    render: u32,
    numbers1: &mut [u32],
    bytes1: &mut [u8],
    output1: &mut [u8],
    numbers2: &mut [u32],
    bytes2: &mut [u8],
    output2: &mut [u8],
) -> Both
    ensures first_call { answer_of (verdict result.first output1.new) numbers1.new bytes1.new ≡ document_of first.now render numbers1.old bytes1.old output1.old }
    ensures second_call { answer_of (verdict result.second output2.new) numbers2.new bytes2.new ≡ document_of second.now render numbers2.old bytes2.old output2.old }
    ensures keeps { Keeps render first.now second.now (verdict result.first output1.new) (verdict result.second output2.new) }
{
    let a = iterator::document(first, render, numbers1, bytes1, output1);
    let b = iterator::document(second, render, numbers2, bytes2, output2);
    Both {
        first: a,
        second: b,
    }
}
