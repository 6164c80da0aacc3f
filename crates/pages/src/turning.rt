// A page of one form turned into a page of another.
ghost use Rattle.std.specs.Prelude.{◌≡◌, length};
ghost use Rattle.octets.specs.Written.{as_written};
ghost use Rattle.octets.specs.Outcomes.{within, answer_of, output_of, listed_written, outcome_listed};
ghost use Rattle.pages.specs.Pages.{tables_of, turn_of};

use crate::forms::Form;
use crate::reading::load_kept;
use crate::writing::store_kept;
use octets::refusal::Refusal;

// Loads the page in its form, and stores it in the other. For the next layer.
pub fn turn(page: &[u8], from: Form, out: &mut [u8], to: Form) -> Result<usize, Refusal>
    ensures { (out.new ≡ output_of out.old (within (length out.old) (turn_of (tables_of from) (tables_of to) page.now)))
        × (as_written result ≡ answer_of (within (length out.old) (turn_of (tables_of from) (tables_of to) page.now)))
        × (listed_written (as_written result) ≡ outcome_listed (within (length out.old) (turn_of (tables_of from) (tables_of to) page.now))) }
{
    let ledger = load_kept(page, from)?;
    store_kept(&ledger, to, out)
}
