// The ledger's rules.
ghost use Rattle.std.specs.Prelude.{◌≡◌, ◌<◌};
ghost use Rattle.octets.specs.Refusals.{refusal_in};
ghost use Rattle.ledger.specs.Ledgers.{row_keeps, row_empty, place_keeps, keeps_rules, rules_refusal, as_row};

use crate::Ledger;
use crate::cells::{CELLS, NO_TIME, ROWS, Row, count_of, new_row, row_at};
use blocks::statistics::LATEST_TIME;
use octets::refusal::Refusal;

// A key and a reading are below 2^32.
const WIDTH: u64 = 0x1_0000_0000;

// Whether a row keeps the rules by itself: its time is a time of day, or none is known.
fn is_row_kept(row: Row) -> bool
    ensures { result ≡ row_keeps (as_row row) }
{
    row.key < WIDTH
        && row.reading <= row.life
        && row.reading < WIDTH
        && (row.time <= LATEST_TIME as u64 || row.time == NO_TIME)
}

// Whether a place has no row.
fn is_empty(row: Row) -> bool
    ensures { result ≡ row_empty (as_row row) }
{
    row == new_row(0)
}

// Whether a place keeps the rules: a row above the one before it; no row past the row count.
fn is_place_kept(cells: &[u64; CELLS], i: usize) -> bool
    requires { i < 256 }
    ensures { result ≡ place_keeps cells.now i }
{
    let row = row_at(cells, i);
    if i < count_of(cells) {
        (i == 0 || row_at(cells, i - 1).key < row.key) && is_row_kept(row)
    } else {
        is_empty(row)
    }
}

// Whether lent cells keep the rules.
pub fn is_kept(cells: &[u64; CELLS]) -> bool
    ensures { result ≡ keeps_rules cells.now }
{
    count_of(cells) <= ROWS && (0..ROWS).all(|i| is_place_kept(cells, i))
}

// 16 for a ledger that breaks the rules.
pub fn check(ledger: Ledger) -> Result<(), Refusal>
    ensures { refusal_in result ≡ rules_refusal ledger.cells }
{
    if is_kept(&ledger.cells) {
        Ok(())
    } else {
        Err(Refusal::RulesBroken)
    }
}
