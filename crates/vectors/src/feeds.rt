// The feed layer's cases: a feed that comes in pieces, run over a fresh ledger.
ghost use Rattle.std.specs.Prelude.{◌≤◌, ◌<◌};

use crate::Text;
use crate::ledgers::say_rows;
use feed::run::{Ending, run};
use feed::totals::{Totals, ZEROS};
use ledger::kept::KeptLedger;

// How many of so many octets have come, with one piece more; a piece of 0 is all of them.
fn with_piece(to: usize, piece: usize, size: usize) -> usize
    requires { to < size }
    ensures { (to < result) × (result ≤ size) }
{
    if piece == 0 || size - to < piece {
        size
    } else {
        to + piece
    }
}

// A run for each piece, over what waits and the piece; when all octets have come, a last one over what waits.
fn run_pieces(ledger: &mut KeptLedger, s: &[u8], piece: usize) -> Totals {
    let mut totals = ZEROS;
    let mut from: usize = 0;
    let mut to: usize = 0;
    while to < s.len() {
        to = with_piece(to, piece, s.len());
        let done = run(ledger, &s[from..to], false, totals);
        totals = done.totals;
        from += done.at;
        if matches!(done.ending, Ending::Stopped) {
            return totals;
        }
    }
    run(ledger, &s[from..], true, totals).totals
}

// Accepted, refused, posted and unposted.
fn say_totals(text: &mut Text, totals: Totals) {
    text.number(totals.accepted);
    text.more(&[totals.refused, totals.posted, totals.unposted]);
}

// The totals, row count and places.
pub(crate) fn say_feed(s: &[u8], text: &mut Text, piece: usize) {
    let mut ledger = KeptLedger::fresh();
    let totals = run_pieces(&mut ledger, s, piece);
    say_totals(text, totals);
    say_rows(text, &ledger.cells);
}
