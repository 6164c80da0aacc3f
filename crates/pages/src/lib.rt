#![tactic(auto)]

// The ledger as a page, and a page of one form turned into the other.
ghost use Rattle.std.specs.Prelude.{◌≡◌, length};
ghost use Rattle.octets.specs.Written.{as_written};
ghost use Rattle.octets.specs.Outcomes.{within, answer_of, output_of, listed_written, outcome_listed};
ghost use Rattle.ledger.specs.Answer.{as_answer};
ghost use Rattle.pages.specs.Pages.{old, new, load_of, store_of, turn_of};

pub mod forms;
mod page;
mod reading;
pub mod turning;
mod writing;

use crate::forms::Form;
pub use crate::reading::load_kept;
use crate::turning::turn;
pub use crate::writing::store_kept;
use ledger::kept::KeptLedger;
use ledger::rules::is_kept;
use ledger::{Answer, Ledger, fresh};
use octets::refusal::Refusal;

// The ledger of a page, or 16 and a fresh one.
pub fn load(page: &[u8]) -> Answer
    ensures { as_answer result ≡ load_of new page.now }
{
    match load_kept(page, Form::New) {
        Ok(kept) => Answer {
            answer: Ok(()),
            ledger: Ledger::from(kept),
        },
        Err(refusal) => Answer {
            answer: Err(refusal),
            ledger: fresh(),
        },
    }
}

// Stores the ledger as a page: 16, then 12; octets past the page stay.
pub fn store(ledger: Ledger, out: &mut [u8]) -> Result<usize, Refusal>
    ensures { (out.new ≡ output_of out.old (within (length out.old) (store_of new ledger.cells)))
        × (as_written result ≡ answer_of (within (length out.old) (store_of new ledger.cells)))
        × (listed_written (as_written result) ≡ outcome_listed (within (length out.old) (store_of new ledger.cells))) }
{
    // Judged where it stands, as a post is.
    if !is_kept(&ledger.cells) {
        return Err(Refusal::RulesBroken);
    }
    let kept = KeptLedger {
        cells: ledger.cells,
    };
    store_kept(&kept, Form::New, out)
}

// Turns an old page into a new one with all times unknown: 16, then 12; octets past the page stay. This and the next are operations with names of
// their own in what is promised; both are `turn`.
pub fn to_new(page: &[u8], out: &mut [u8]) -> Result<usize, Refusal>
    ensures { (out.new ≡ output_of out.old (within (length out.old) (turn_of old new page.now)))
        × (as_written result ≡ answer_of (within (length out.old) (turn_of old new page.now)))
        × (listed_written (as_written result) ≡ outcome_listed (within (length out.old) (turn_of old new page.now))) }
{
    turn(page, Form::Old, out, Form::New)
}

// Turns a new page into an old one by leaving the times out: 16, then 12; octets past the page stay.
pub fn to_old(page: &[u8], out: &mut [u8]) -> Result<usize, Refusal>
    ensures { (out.new ≡ output_of out.old (within (length out.old) (turn_of new old page.now)))
        × (as_written result ≡ answer_of (within (length out.old) (turn_of new old page.now)))
        × (listed_written (as_written result) ≡ outcome_listed (within (length out.old) (turn_of new old page.now))) }
{
    turn(page, Form::New, out, Form::Old)
}
