// The numbers of a ledger in their places: first its own, then 256 places of a row.
ghost use Rattle.std.specs.Prelude.{◌≡◌, ◌<◌};
ghost use Rattle.rows.specs.Rows.{new_row};
ghost use Rattle.ledger.specs.Ledgers.{row_in, count_of, put_row, as_row};

// How many numbers are the ledger's own, and how many are a row's; how many places there are, and how many numbers in all.
pub(crate) const HEAD: usize = 1;

pub(crate) const WIDE: usize = 4;

pub const ROWS: usize = 256;

pub const CELLS: usize = HEAD + WIDE * ROWS;

// The place of each: of the ledger's own numbers, and of a row's.
pub const COUNT: usize = 0;

pub(crate) const KEY: usize = 0;

const LIFE: usize = 1;

const READING: usize = 2;

const TIME: usize = 3;

// The mark that no time is known: all ones in 32 bits. A number, and no Option, since a lent ledger may have any
// number there, which is told as it stands.
pub const NO_TIME: u64 = 0xFFFF_FFFF;

// A row: its counter's key, which is SAC, SIC, the octet of 015 and TYPE, the life count, the last midnight reading, and the time of the last
// from-midnight entry, in 1/128 s, or NO_TIME.
#[derive(Clone, Copy, PartialEq, Eq)]
pub struct Row {
    pub key: u64,
    pub life: u64,
    pub reading: u64,
    pub time: u64,
}

// A new row; with key 0, an empty place.
pub(crate) fn new_row(key: u64) -> Row
    ensures { as_row result ≡ new_row key }
{
    Row {
        key,
        life: 0,
        reading: 0,
        time: NO_TIME,
    }
}

// The row count.
pub fn count_of(cells: &[u64; CELLS]) -> usize
    ensures { result ≡ count_of cells.now }
{
    cells[COUNT] as usize
}

// The row at a place. For the next layer: there are 256 places, which each clause asks, since a place is a loop's own number or one that was found.
pub fn row_at(cells: &[u64; CELLS], i: usize) -> Row
    requires { i < 256 }
    ensures { as_row result ≡ row_in cells.now i }
{
    let at = HEAD + WIDE * i;
    Row {
        key: cells[at + KEY],
        life: cells[at + LIFE],
        reading: cells[at + READING],
        time: cells[at + TIME],
    }
}

// A row put into a place. For the next layer: there are 256 places.
pub fn put_row(cells: &mut [u64; CELLS], i: usize, row: Row)
    requires { i < 256 }
    ensures { cells.new ≡ put_row cells.old i (as_row row) }
{
    let at = HEAD + WIDE * i;
    cells[at + KEY] = row.key;
    cells[at + LIFE] = row.life;
    cells[at + READING] = row.reading;
    cells[at + TIME] = row.time;
}
