// A page read.
ghost use Rattle.std.specs.Prelude.{◌≡◌, ◌<◌, true, false, IfOk, IfErr, IfSome, IfNone};
ghost use Rattle.octets.specs.Refusals.{number_of, rules_broken};
ghost use Rattle.ledger.specs.Ledgers.{as_row};
ghost use Rattle.pages.specs.Pages.{tables_of, row_at, cells_in, head_keeps, page_keeps};

use crate::forms::Form;
use crate::page::Page;
use ledger::cells::{COUNT, NO_TIME, ROWS, Row, put_row};
use ledger::kept::KeptLedger;
use ledger::rules::is_kept;
use ledger::{Ledger, fresh};
use octets::read;
use octets::refusal::Refusal;

// Whether octets have the head of a page, which is that of its row count, and the length too. The number at 6 is where the readings end: there the
// times begin, or an old page ends.
fn is_headed(octets: &[u8], form: Form) -> bool
    ensures { result ≡ head_keeps (tables_of form) octets.now }
{
    let n = read(octets, 0, 2) as usize;
    let head = form.head_long();
    let length = form.page_length(n);
    n <= ROWS
        && read(octets, 2, 2) as usize == head
        && read(octets, 4, 2) as usize == head + 4 * n
        && read(octets, 6, 2) as usize == head + 16 * n
        && read(octets, head - 2, 2) as usize == length
        && octets.len() == length
}

impl<'a> Page<'a> {
    // The page that octets are, if they are one.
    fn of(octets: &'a [u8], form: Form) -> Option<Page<'a>>
        ensures some { IfSome result (λ page. (page.octets.now ≡ octets.now) × (page.form ≡ form)) }
        ensures none { IfNone result (head_keeps (tables_of form) octets.now ≡ false) }
    {
        if is_headed(octets, form) {
            let n = read(octets, 0, 2) as usize;
            Some(Page { octets, form, n })
        } else {
            None
        }
    }

    // The time of row i.
    #[tactic(auto, unfolding(crate::specs::Pages::row_from))]
    fn time(&self, i: usize) -> u64
        requires { i < self.now.n }
        ensures { result ≡ (row_at (tables_of self.now.form) self.now.octets.now self.now.n i).time }
    {
        match self.form {
            Form::Old => NO_TIME,
            Form::New => read(self.octets, 10 + 16 * self.n + 4 * i, 4),
        }
    }

    // Row i.
    #[tactic(auto, unfolding(crate::specs::Pages::row_from))]
    fn row(&self, i: usize) -> Row
        requires { i < self.now.n }
        ensures { as_row result ≡ row_at (tables_of self.now.form) self.now.octets.now self.now.n i }
    {
        let head = self.form.head_long();
        let at = head + 4 * self.n + 12 * i;
        Row {
            key: read(self.octets, head + 4 * i, 4),
            life: read(self.octets, at, 8),
            reading: read(self.octets, at + 8, 4),
            time: self.time(i),
        }
    }

    // The ledger of its rows, which may break the rules.
    fn ledger(&self) -> Ledger
        ensures { result.cells ≡ cells_in (tables_of self.now.form) self.now.octets.now }
    {
        let mut ledger = fresh();
        ledger.cells[COUNT] = self.n as u64;
        for i in 0..self.n {
            put_row(&mut ledger.cells, i, self.row(i));
        }
        ledger
    }
}

// The ledger of a page in either form, or 16. For the next layer: whoever works on the ledger that a page has, and stores it, moves it as little as may be.
pub fn load_kept(octets: &[u8], form: Form) -> Result<KeptLedger, Refusal>
    ensures kept { IfOk result (λ ledger. (page_keeps (tables_of form) octets.now ≡ true) × (ledger.cells ≡ cells_in (tables_of form) octets.now)) }
    ensures broken { IfErr result (λ refusal. (page_keeps (tables_of form) octets.now ≡ false) × (number_of refusal ≡ rules_broken)) }
{
    let page = Page::of(octets, form).ok_or(Refusal::RulesBroken)?;
    // Judged where it stands, as a post is.
    let ledger = page.ledger();
    if is_kept(&ledger.cells) {
        Ok(KeptLedger {
            cells: ledger.cells,
        })
    } else {
        Err(Refusal::RulesBroken)
    }
}
