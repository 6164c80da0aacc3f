// The adding-up rule on a row.
ghost use Rattle.std.specs.Prelude.{◌≡◌, ◌^◌, leb, IfOk};
ghost use Rattle.octets.specs.Choice.{pick};
ghost use Rattle.octets.specs.Refusals.{refusal_in, life_passes};
ghost use Rattle.rows.specs.Rows.{midnight, adds, add_up};
ghost use Rattle.ledger.specs.Ledgers.{as_row};
ghost use Rattle.ledger.specs.Reports.{as_entry};

use crate::cells::{NO_TIME, Row};
use crate::entries::Entry;
use octets::refusal::Refusal;

// REF of an entry that counts from the last report.
const FROM_LAST_REPORT: u8 = 1;

// Whether a midnight has passed since the row's time: the entry's is earlier.
fn is_midnight(row: Row, entry: Entry) -> bool
    ensures { result ≡ midnight (as_row row) (as_entry entry) }
{
    row.time != NO_TIME && entry.time < row.time
}

// What an entry adds to the life count.
fn added(row: Row, entry: Entry) -> u64
    ensures { result ≡ adds (as_row row) (as_entry entry) }
{
    if entry.reference == FROM_LAST_REPORT || is_midnight(row, entry) {
        entry.count
    } else {
        // Not one test with the two above: every entry's count would then be compared, and no processor foresees which is smaller.
        entry.count.checked_sub(row.reading).unwrap_or(entry.count)
    }
}

// An entry added up to a row; 15 where its life count would pass 2^64 - 1.
#[tactic(auto, unfolding(rows::specs::Rows::add_up))]
pub(crate) fn add_up(row: Row, entry: Entry) -> Result<Row, Refusal>
    ensures sum { IfOk result (λ sum. as_row sum ≡ add_up (as_row row) (as_entry entry)) }
    ensures refused { refusal_in result ≡ pick (leb (2 ^ 64) (add_up (as_row row) (as_entry entry)).life) life_passes 0 }
{
    let life = row
        .life
        .checked_add(added(row, entry))
        .ok_or(Refusal::LifePasses)?;
    if entry.reference == FROM_LAST_REPORT {
        Ok(Row { life, ..row })
    } else {
        Ok(Row {
            life,
            reading: entry.count,
            time: entry.time,
            ..row
        })
    }
}
