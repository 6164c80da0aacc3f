// The ledger layer's cases. A ledger is given as octets, so that one that breaks the rules can be said too: the row count (8), then 256
// places of key (4), life count (8), reading (4) and time (4, all ones where none is known).
use crate::Text;
use crate::case::unknown;
use ledger::cells::{CELLS, COUNT, NO_TIME, ROWS, Row, put_row, row_at};
use ledger::post::post;
use ledger::{Answer, Ledger};
use pages::load;

// The octets of a ledger.
const SIZE: usize = 8 + 20 * ROWS;

// An empty place, as the ledger's own `new_row`, which stays in its crate.
const EMPTY: Row = Row {
    key: 0,
    life: 0,
    reading: 0,
    time: NO_TIME,
};

// The ledger that octets give; past their end there are zeros.
pub(crate) fn ledger_of(s: &[u8]) -> Ledger {
    let mut cells = [0u64; CELLS];
    cells[COUNT] = octets::read(s, 0, 8);
    for i in 0..ROWS {
        let at = 8 + 20 * i;
        let row = Row {
            key: octets::read(s, at, 4),
            life: octets::read(s, at + 4, 8),
            reading: octets::read(s, at + 12, 4),
            time: octets::read(s, at + 16, 4),
        };
        put_row(&mut cells, i, row);
    }
    Ledger { cells }
}

// A place that is not empty: its number from 0, key, life count, reading and time.
fn say_place(text: &mut Text, i: usize, row: Row) {
    if row != EMPTY {
        text.more(&[i as u64, row.key, row.life, row.reading, row.time]);
    }
}

// Row count and places.
pub(crate) fn say_rows(text: &mut Text, cells: &[u64; CELLS]) {
    text.more(&[cells[COUNT]]);
    for i in 0..ROWS {
        say_place(text, i, row_at(cells, i));
    }
}

// Refusal, row count and places.
fn say_ledger(text: &mut Text, answer: Answer) {
    text.number(match answer.answer {
        Ok(()) => 0,
        Err(refusal) => u64::from(u8::from(refusal)),
    });
    say_rows(text, &answer.ledger.cells);
}

// A record of a block posted: the ledger's octets, then the block's.
pub(crate) fn say_posting(s: &[u8], text: &mut Text, k: usize) {
    if s.len() < SIZE {
        unknown(text);
    } else {
        say_ledger(text, post(ledger_of(s), &s[SIZE..], k));
    }
}

pub(crate) fn say_loading(s: &[u8], text: &mut Text) {
    say_ledger(text, load(s));
}
