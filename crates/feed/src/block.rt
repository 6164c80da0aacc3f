// The next block of a feed, and its records posted.
ghost use Rattle.std.specs.Prelude.{◌≡◌, ℕ};
ghost use Rattle.blocks.specs.Walks.{read_of};
ghost use Rattle.blocks.specs.Reading.{Accepted};
ghost use Rattle.rows.specs.Rows.{add_up};
ghost use Rattle.rows.specs.Posting.{answers, after};
ghost use Rattle.ledger.specs.Ledgers.{rows_of, changed};
ghost use Rattle.feed.specs.Blocks.{next_of, listed_next, next_listed, reports_of};
ghost use Rattle.feed.specs.Totals.{accepted_one};

use crate::run::Ending;
use crate::totals::Totals;
use blocks::statistics::{CATEGORY, see};
use blocks::walk::read;
use ledger::kept::KeptLedger;
use ledger::report::Report;

// What the octets at hand begin with: an accepted block and its LEN, a refused one to skip by LEN; or the run leaves off.
#[derive(Drop)]
pub enum Next {
    Accepted(usize),
    Skipped(usize),
    Left(Ending),
}

// What the octets at hand begin with.
pub fn next_block(s: &[u8], is_over: bool) -> Next
    ensures { (result ≡ next_of s.now is_over) × (listed_next result ≡ next_listed s.now is_over) }
{
    if s.len() < 3 {
        return if !is_over {
            Next::Left(Ending::More)
        } else if s.is_empty() {
            Next::Left(Ending::Ended)
        } else {
            Next::Left(Ending::Stopped)
        };
    }
    let len = octets::read(s, 1, 2) as usize;
    if len < 4 {
        return Next::Left(Ending::Stopped);
    }
    if s.len() < len {
        return if is_over {
            Next::Left(Ending::Stopped)
        } else {
            Next::Left(Ending::More)
        };
    }
    match read(s) {
        Ok(_) => Next::Accepted(len),
        Err(_) => Next::Skipped(len),
    }
}

// Posts the records of an accepted block of LEN octets, along its steps: only category 23 has statistics reports, and every other record is
// answered 13. `run` has seen the block accepted.
pub(crate) fn post_block(ledger: &mut KeptLedger, s: &[u8], len: usize, totals: Totals) -> Totals
    requires { (n : ℕ) × (read_of s.now ≡ Accepted len n) }
    ensures { (ledger.new.cells ≡ changed (λ rows. after add_up rows (reports_of s.now)) ledger.old.cells)
        × (result ≡ accepted_one totals (answers add_up (rows_of ledger.old.cells) (reports_of s.now))) }
{
    if s[0] != CATEGORY {
        return totals.with_accepted();
    }
    let mut after = totals;
    let mut at: usize = 3;
    while at < len {
        let seen = see(s, len, at);
        if let Some(numbers) = seen.report {
            let report = Report { octets: s, numbers };
            after = after.counted(ledger.post_report(&report));
        }
        at = seen.next;
    }
    after.with_accepted()
}
