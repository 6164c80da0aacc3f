// What is printed, gathered whole: a header, the rows by key, and the totals.
ghost use Rattle.std.specs.Prelude.{List, ◌≡◌, ℕ, take};
ghost use Rattle.io.specs.Counts.{IsPrefixLen};
ghost use Rattle.ledger.specs.Ledgers.{rows_of, table};
ghost use Rattle.text.specs.Gathered.{put_all};
ghost use Rattle.wear.specs.Turns.{Worn};
ghost use Rattle.wear.specs.Sheets.{line_of, row_line, totals_line, Printed};

use crate::input::Turn;
use feed::totals::Totals;
use ledger::cells::{Row, count_of, row_at};
use ledger::kept::KeptLedger;
use text::Text;

// Room for the longest sheet: a header of 21 octets, 256 rows of 41 at most, and totals of 117.
const SHEET: usize = 21 + 41 * 256 + 117;

// A row: the key in 8 hex digits, life count and reading.
fn row_line(text: &mut Text<SHEET>, row: Row)
    ensures { text.new ≡ put_all text.old (line_of row.key row.life row.reading) }
{
    let mut spelled = [0u8; 4];
    octets::write(&mut spelled, 0, 4, row.key);
    text.hex(&spelled);
    text.emit(b' ');
    text.number(row.life);
    text.emit(b' ');
    text.number(row.reading);
    text.emit(b'\n');
}

// The rows.
fn row_lines(text: &mut Text<SHEET>, ledger: &KeptLedger)
    ensures { text.new ≡ put_all text.old (table row_line (rows_of ledger.now.cells)) }
{
    for i in 0..count_of(&ledger.cells) {
        row_line(text, row_at(&ledger.cells, i));
    }
}

fn totals_line(text: &mut Text<SHEET>, totals: Totals)
    ensures { text.new ≡ put_all text.old (totals_line totals) }
{
    text.word_number(b"accepted ", totals.accepted);
    text.word_number(b" refused ", totals.refused);
    text.word_number(b" posted ", totals.posted);
    text.word_number(b" unposted ", totals.unposted);
    text.emit(b'\n');
}

// The sheet of a whole feed, at the turn with which its reads have come to an end.
fn sheet(ledger: &KeptLedger, last: Turn) -> Text<SHEET>
    requires { (feed : List ℕ) × Worn feed ledger.now.cells last }
    ensures { Printed last (take result.held result.octets) × IsPrefixLen result.held result.octets }
{
    let mut text = Text::new();
    text.emit_all(b"counter life reading\n");
    row_lines(&mut text, ledger);
    totals_line(&mut text, last.totals);
    text
}

// The sheet is written at once; whether that could be done.
pub(crate) fn print(ledger: &KeptLedger, last: Turn) -> bool
    requires { (feed : List ℕ) × Worn feed ledger.now.cells last }
{
    let text = sheet(ledger, last);
    io::write_all(1, &text.octets[..text.held])
}
