// A run over the octets at hand, block after block.
ghost use Rattle.std.specs.Prelude.{◌≡◌};
ghost use Rattle.ledger.specs.Ledgers.{rows_of, changed};
ghost use Rattle.feed.specs.Runs.{state, run_over, done_of};

use crate::block::{Next, next_block, post_block};
use crate::totals::Totals;
use ledger::kept::KeptLedger;

// How a run over the octets at hand left off.
#[derive(Drop)]
pub enum Ending {
    Ended,
    Stopped,
    More,
}

// The totals, the octets used, and how the run left off.
#[derive(Drop)]
pub struct Done {
    pub totals: Totals,
    pub at: usize,
    pub ending: Ending,
}

// A run over the octets at hand, as far as they go.
pub fn run(ledger: &mut KeptLedger, s: &[u8], is_over: bool, totals: Totals) -> Done
    ensures { (ledger.new.cells ≡ changed (λ rows. (run_over s.now is_over (state rows totals)).state.rows) ledger.old.cells)
        × (result ≡ done_of (run_over s.now is_over (state (rows_of ledger.old.cells) totals))) }
{
    let mut after = totals;
    let mut at: usize = 0;
    loop {
        let rest = &s[at..];
        match next_block(rest, is_over) {
            Next::Accepted(len) => {
                after = post_block(ledger, rest, len, after);
                at += len;
            }
            Next::Skipped(len) => {
                after = after.with_refused();
                at += len;
            }
            Next::Left(ending) => {
                let totals = match ending {
                    Ending::Stopped => after.with_refused(),
                    Ending::Ended | Ending::More => after,
                };
                return Done { totals, at, ending };
            }
        }
    }
}
