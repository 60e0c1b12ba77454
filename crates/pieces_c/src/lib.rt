// `pieces` for C and Rust, with the same clauses: what is compared with the Rust's own answers. For the tests alone, no part of what is
// delivered.
#![tactic(auto)]

ghost use Rattle.std.specs.Prelude.{◌≡◌, ◌<◌, ◌≤◌};
ghost use Rattle.restructured_text.specs.Strings.{lent};
ghost use Rattle.restructured_text.specs.Block.{lent_block};
ghost use Rattle.pieces.specs.Numbered.{piece_of};
ghost use Rattle.pieces.specs.Parsers.{raw_of, block_said, strings_said, block_at, transformed_at, form_at};

use pieces::Answer;
use pieces::parser::Parsed;

// What the piece of this number answers; the parameter is a place for 2 and 13, and a stop set for 6.
#[unsafe(no_mangle)]
pub extern "C" fn rst_piece(kind: usize, parameter: usize, s: &[u8]) -> Answer
    ensures { result ≡ piece_of kind parameter s.now }
{
    pieces::rst_piece(kind, parameter, s)
}

// What the parser of this number answers.
#[unsafe(no_mangle)]
pub extern "C" fn rst_parser(kind: usize, s: &[u8], scratch: &mut [u8]) -> Parsed
    ensures raw { kind < 9 → result ≡ raw_of kind s.now }
    ensures transform { 9 ≤ kind → kind ≤ 10 → block_said result scratch.new ≡ lent_block s.now scratch.old (transformed_at kind s.now) }
    ensures block { 11 ≤ kind → kind ≤ 12 → block_said result scratch.new ≡ lent_block s.now scratch.old (block_at kind s.now) }
    ensures strings { 13 ≤ kind → kind ≤ 17 → strings_said result scratch.new ≡ lent s.now scratch.old (form_at kind s.now) }
{
    pieces::parser::rst_parser(kind, s, scratch)
}
