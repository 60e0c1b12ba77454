// The index of the names with a destination. Each name belongs to one of 256 buckets. Of each bucket the index has the last row, and of each
// row the one before it in its bucket: counted from 1, and 0 where there is none.
// No map, and no Option of a row: there is no heap, and what the caller lends are numbers of 32 bits.
ghost use Rattle.std.specs.Prelude.{◌≡◌};
ghost use Rattle.iterator.specs.Index.{row_bucket, with_row, TablesKept, Indexed};
ghost use Rattle.iterator.specs.Inner.{NamesHeld, Indexable};

use crate::names::bucket;
use crate::rows::{ALIASES, ROWS_MAX, Table};

// How many buckets there are.
const BUCKETS: usize = 256;
// Where the last row of each bucket stands.
pub const LASTS: usize = ALIASES + 4 * ROWS_MAX;
// Where, of each row, the one before it in its bucket stands: in the table of the aliases, which are resolved before the index is made.
pub const EARLIER: usize = ALIASES;

// Puts row i into the index, behind the rows before it.
fn index_row(i: usize, numbers: &mut [u32], bytes: &[u8])
    requires { Indexable i numbers.old bytes.now }
    ensures { numbers.new ≡ with_row i (row_bucket numbers.old bytes.now i) numbers.old }
{
    let row = Table::Destinations.row(i, numbers);
    let b = bucket(row.name.of(bytes)) as usize;
    numbers[EARLIER + i] = numbers[LASTS + b];
    numbers[LASTS + b] = (i + 1) as u32;
}

// Makes the index of n names.
pub fn index_names(n: usize, numbers: &mut [u32], bytes: &[u8])
    requires { NamesHeld n numbers.old bytes.now }
    ensures kept { TablesKept numbers.old numbers.new }
    ensures indexed { Indexed n numbers.new bytes.now }
{
    numbers[LASTS..LASTS + BUCKETS].fill(0);
    for i in 0..n {
        index_row(i, numbers, bytes);
    }
}
