#![tactic(auto)]

// The ledger: rows of counters, posting.
ghost use Rattle.std.specs.Prelude.{◌≡◌, []};
ghost use Rattle.ledger.specs.Ledgers.{cells_of};

pub mod cells;
pub mod entries;
pub mod kept;
pub mod lent;
pub mod places;
pub mod post;
pub mod report;
pub mod rules;
pub mod sums;

use crate::cells::{CELLS, ROWS, new_row, put_row};
use octets::refusal::Refusal;

// The row count, then the rows, rising by key; in a place past the row count key, life count and reading are
// 0, and no time is known. One array of numbers, and no rows, as the rules, the pages and what is promised of a ledger speak of its cells.
#[derive(Drop)]
pub struct Ledger {
    pub cells: [u64; CELLS],
}

// Whether something was refused, and the ledger that goes with it.
#[derive(Drop)]
pub struct Answer {
    pub answer: Result<(), Refusal>,
    pub ledger: Ledger,
}

// A ledger without rows.
pub fn fresh() -> Ledger
    ensures { result.cells ≡ cells_of [] }
{
    let mut cells = [0u64; CELLS];
    for i in 0..ROWS {
        put_row(&mut cells, i, new_row(0));
    }
    Ledger { cells }
}
