// The document reader: all links of a document, resolved, as packed records.
//
// The fourth layer (document 01, "`iterator.rs`", "Records" and "What comes out of a refusal"), over the promises of `parse`. The one
// public call asks nothing of its caller and always returns; its contract is an equation with a definition of specs/.
#![tactic(auto)]

mod areas;
mod collect;
mod counters;
mod index;
mod names;
mod records;
mod render;
mod resolve;
mod rows;

ghost use Rattle.std.specs.Prelude.{◌≡◌, ◌≤◌, ◌<◌, length};
ghost use Rattle.parse.specs.Links.{links_of};
ghost use Rattle.iterator.specs.Collect.{collect_all};
ghost use Rattle.iterator.specs.Document.{answer_of, document_of, verdict, verdict_of, answered};
ghost use Rattle.iterator.specs.Render.{render_number};
ghost use Rattle.iterator.specs.Inner.{Roomy, outcome_of, Told};

use crate::areas::{clear, clear_bytes};
use crate::collect::collect;
use crate::records::Strings;
use crate::render::Render;
use crate::resolve::{Resolved, resolve_label2label_references, resolve_text2label_references};
use parse::{DOCUMENT_LEN_MAX, Refusal};
use rst_bytes::domain::first_outside;

// What a call returns: the number of the refusal or 0; how many links; how many bytes of records or, refused, the place or size that the
// number comes with.
#[repr(C)]
#[derive(Clone, Copy, Debug, Default, PartialEq, Eq)]
pub struct Outcome {
    pub number: u32,
    pub links: u32,
    pub bytes: u32,
}

// The least work numbers and work bytes. The two areas are lent apart: of a struct of both, each function that writes in it would have to
// promise that it keeps the two references.
pub const NUMBERS_MIN: usize = 4096;

pub const BYTES_MIN: usize = 49152;

impl Outcome {
    // What a call returns of the links that it wrote, or of a refusal. No `From`: it asks that 32 bits hold them.
    fn new(answer: Result<Resolved, Refusal>) -> Self
        requires links { (outcome_of answer).links < 4294967296 }
        requires bytes { (outcome_of answer).bytes < 4294967296 }
        ensures { result ≡ outcome_of answer }
    {
        match answer {
            Ok(r) => Outcome {
                number: 0,
                links: r.links as u32,
                bytes: r.size as u32,
            },
            Err(e) => Outcome {
                number: e.number(),
                links: 0,
                bytes: e.bytes() as u32,
            },
        }
    }
}

// The links of a document that passed checks 1 to 4, collected, resolved and written.
fn read(
    document: &[u8],
    render: Render,
    numbers: &mut [u32],
    bytes: &mut [u8],
    output: &mut [u8],
) -> Result<Resolved, Refusal>
    requires { (length document.now ≤ 16384) × Roomy numbers.old bytes.old }
    ensures { Told result output.new (answered (collect_all (render_number render) document.now (links_of document.now)) output.old) }
{
    let c = collect(document, render, numbers, bytes)?;
    let names = resolve_label2label_references(c.label2label, c.label2dest, numbers, bytes);
    let strings = Strings { document, bytes };
    let r = resolve_text2label_references(c.links, names, strings, numbers);
    if output.len() < r.size {
        return Err(Refusal::OutputLen(r.size));
    }
    strings.write_records(r.links, numbers, output);
    Ok(r)
}

// Checks 1 to 4, and then the links.
#[tactic(auto, unfolding(crate::specs::Document::verdict_of))]
fn work(
    document: &[u8],
    render: u32,
    numbers: &mut [u32],
    bytes: &mut [u8],
    output: &mut [u8],
) -> Result<Resolved, Refusal>
    ensures { Told result output.new (verdict_of document.now render (length numbers.old) (length bytes.old) output.old) }
{
    let render = Render::try_from(render)?;
    if DOCUMENT_LEN_MAX < document.len() {
        return Err(Refusal::DocumentLen);
    }
    if numbers.len() < NUMBERS_MIN || bytes.len() < BYTES_MIN {
        return Err(Refusal::WorkLen);
    }
    match first_outside(document) {
        Some(n) => Err(Refusal::Character(n)),
        None => read(document, render, numbers, bytes, output),
    }
}

// The links of a document as records at the front of the output, or a refusal; both work areas are left all zero, the numbers last, so that
// they are in the cache for the next call.
pub fn document(
    document: &[u8],
    render: u32,
    numbers: &mut [u32],
    bytes: &mut [u8],
    output: &mut [u8],
) -> Outcome
    ensures { answer_of (verdict result output.new) numbers.new bytes.new ≡ document_of document.now render numbers.old bytes.old output.old }
{
    let answer = work(document, render, numbers, bytes, output);
    clear_bytes(bytes);
    clear(numbers, 0);
    Outcome::new(answer)
}
