// The ledger lent for writing.
ghost use Rattle.std.specs.Prelude.{◌≡◌};
ghost use Rattle.octets.specs.Refusals.{refusal_in};
ghost use Rattle.ledger.specs.Ledgers.{answer};
ghost use Rattle.ledger.specs.Posts.{post_of};

use crate::post::post;
use crate::{Ledger, fresh};
use octets::refusal::Refusal;
use std::mem::replace;

// A record of a block posted to a ledger that is lent: the refusal that `post` answers, and behind the reference the ledger that it gives.
pub fn post_lent(ledger: &mut Ledger, s: &[u8], k: usize) -> Result<(), Refusal>
    ensures { answer (refusal_in result) ledger.new.cells ≡ post_of ledger.old.cells s.now k }
{
    let answer = post(replace(ledger, fresh()), s, k);
    *ledger = answer.ledger;
    answer.answer
}
