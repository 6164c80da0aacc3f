// A feed at the doors: its blocks posted to the ledger of a page, and the cells that tell of it.
ghost use Rattle.std.specs.Prelude.{◌≡◌, length};
ghost use Rattle.octets.specs.Outcomes.{within, output_of};
ghost use Rattle.doors.specs.Fed.{as_fed};
ghost use Rattle.doors.specs.Feeds.{feed_run, page_fed, left_off, done_cells, fed_of};

use crate::cell;
use feed::run::{Done, Ending, run};
use feed::totals::ZEROS;
use octets::refusal::Refusal;
use pages::forms::Form;
use pages::{load_kept, store_kept};

// How a run left off: WEAR_ENDED, WEAR_STOPPED and WEAR_MORE of include/wear.h.
const ENDED: u64 = 0;

const STOPPED: u64 = 1;

const MORE: u64 = 2;

// What became of a feed: the octets of the page that was stored, and what the run answered.
#[derive(Drop)]
pub struct Fed {
    pub size: usize,
    pub done: Done,
}

// A function, as neither type is this crate's for a `From`.
fn left_off(ending: Ending) -> u64
    ensures { result ≡ left_off ending }
{
    match ending {
        Ending::Ended => ENDED,
        Ending::Stopped => STOPPED,
        Ending::More => MORE,
    }
}

impl Fed {
    // The cells that tell of it.
    pub(crate) fn cells(self) -> [u64; cell::FEED_CELLS]
        ensures { result ≡ done_cells self.size self.done }
    {
        let totals = self.done.totals;
        let mut values = [0u64; cell::FEED_CELLS];
        values[cell::FEED_PAGE] = self.size as u64;
        values[cell::FEED_USED] = self.done.at as u64;
        values[cell::FEED_LEFT_OFF] = left_off(self.done.ending);
        values[cell::FEED_ACCEPTED] = totals.accepted;
        values[cell::FEED_REFUSED] = totals.refused;
        values[cell::FEED_POSTED] = totals.posted;
        values[cell::FEED_UNPOSTED] = totals.unposted;
        values
    }
}

// The blocks at hand posted to the ledger of a page, and the ledger stored: load's refusal, then store's.
pub(crate) fn fed_page(page: &[u8], s: &[u8], is_over: bool, out: &mut [u8]) -> Result<Fed, Refusal>
    ensures { (out.new ≡ output_of out.old (within (length out.old) (page_fed page.now s.now is_over)))
        × (as_fed result ≡ fed_of (within (length out.old) (page_fed page.now s.now is_over)) (feed_run page.now s.now is_over)) }
{
    let mut ledger = load_kept(page, Form::New)?;
    let done = run(&mut ledger, s, is_over, ZEROS);
    let size = store_kept(&ledger, Form::New, out)?;
    Ok(Fed { size, done })
}
