// The places of keys among a ledger's rows, and entries added up where the rows stand.
ghost use Rattle.std.specs.Prelude.{OnOk, IfOk, IfErr, ◌∷◌, ◌++◌, ◌≡◌, ◌≤◌, ◌<◌, ◌^◌, leb, length, take, drop};
ghost use Rattle.octets.specs.Choice.{pick};
ghost use Rattle.octets.specs.Refusals.{refusal_in, life_passes};
ghost use Rattle.rows.specs.Rows.{add_up, row_of, life_of};
ghost use Rattle.rows.specs.Posting.{add_entry};
ghost use Rattle.ledger.specs.Ledgers.{row_in, count_of, rows_of, changed, put_row, as_row};
ghost use Rattle.ledger.specs.Reports.{as_entry};
ghost use Rattle.ledger.specs.Steps.{Kept, Few, RowAt, GapAt};

use crate::cells::{CELLS, COUNT, HEAD, KEY, Row, WIDE, count_of, new_row, put_row, row_at};
use crate::entries::Entry;
use crate::kept::KeptLedger;
use crate::sums::add_up;
use octets::refusal::Refusal;

impl KeptLedger {
    // The place of a key's row; or, where it has none, the place where one would stand.
    pub(crate) fn find(&self, key: u64) -> Result<usize, usize>
        ensures row { IfOk result (RowAt self.now.cells key) }
        ensures gap { IfErr result (GapAt self.now.cells key) }
    {
        let (places, _) = self.cells[HEAD..].as_chunks::<WIDE>();
        places[..count_of(&self.cells)].binary_search_by_key(&key, |place| place[KEY])
    }
}

// One row more at a place; those that stood from there on go one place further. It is over the cells, since in between they break the rules.
fn open(cells: &mut [u64; CELLS], i: usize, row: Row)
    requires { Kept cells.old × (i ≤ count_of cells.old) × (count_of cells.old < 256) }
    ensures { cells.new ≡ changed (λ rows. take i rows ++ as_row row ∷ drop i rows) cells.old }
{
    let at = HEAD + WIDE * i;
    cells.copy_within(at..CELLS - WIDE, at + WIDE);
    put_row(cells, i, row);
    cells[COUNT] += 1;
}

// An entry added up to the row at a place. The caller has seen that its life count does not pass. It is over the cells, since only the caller
// knows that the entry's key is the row's, so that the rules hold afterwards.
pub(crate) fn add_at(cells: &mut [u64; CELLS], i: usize, entry: Entry)
    requires { (i < 256) × ((add_up (row_in cells.old i) (as_entry entry)).life < 2 ^ 64) }
    ensures { cells.new ≡ put_row cells.old i (add_up (row_in cells.old i) (as_entry entry)) }
{
    let sum = add_up(row_at(cells, i), entry).unwrap();
    put_row(cells, i, sum);
}

impl KeptLedger {
    // An entry added up to its counter's row, or to a new one; 15 where its life count would pass. The caller has seen that there is room.
    pub(crate) fn add_entry(&mut self, entry: Entry) -> Result<(), Refusal>
        requires few { Few (as_entry entry) }
        requires room { length (add_entry add_up (rows_of self.old.cells) (as_entry entry)) ≤ 256 }
        ensures refused { let after = add_entry add_up (rows_of self.old.cells) (as_entry entry) in
            refusal_in result ≡ pick (leb (2 ^ 64) (life_of (row_of after entry.key))) life_passes 0 }
        ensures added { OnOk result (self.new.cells ≡ changed (λ rows. add_entry add_up rows (as_entry entry)) self.old.cells) }
    {
        match self.find(entry.key) {
            Ok(i) => {
                let row = add_up(row_at(&self.cells, i), entry)?;
                put_row(&mut self.cells, i, row);
            }
            Err(i) => {
                let row = add_up(new_row(entry.key), entry)?;
                open(&mut self.cells, i, row);
            }
        }
        Ok(())
    }
}
