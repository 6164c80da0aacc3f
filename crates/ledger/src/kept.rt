// A ledger that keeps the rules.
ghost use Rattle.std.specs.Prelude.{[], true, false, ◌≡◌, IfOk, IfErr};
ghost use Rattle.ledger.specs.Ledgers.{cells_of, keeps_rules};
ghost use Rattle.ledger.specs.Steps.{Kept};
ghost use Rattle.ledger.specs.Kept.{Kept-prop};

use crate::cells::CELLS;
use crate::rules::is_kept;
use crate::{Ledger, fresh};

// Its cells, of which the rules hold.
#[derive(Drop)]
pub struct KeptLedger {
    pub cells: [u64; CELLS],
    ghost kept: { Kept cells } by { Kept-prop cells },
}

impl KeptLedger {
    // A ledger without rows.
    pub fn fresh() -> KeptLedger
        ensures { result.cells ≡ cells_of [] }
    {
        let Ledger { cells } = fresh();
        KeptLedger { cells }
    }

    // The ledger, where it keeps the rules; else the ledger back.
    pub fn of(ledger: Ledger) -> Result<KeptLedger, Ledger>
        ensures kept { IfOk result (λ kept. (keeps_rules ledger.cells ≡ true) × (kept.cells ≡ ledger.cells)) }
        ensures broken { IfErr result (λ back. (keeps_rules ledger.cells ≡ false) × (back.cells ≡ ledger.cells)) }
    {
        if is_kept(&ledger.cells) {
            Ok(KeptLedger {
                cells: ledger.cells,
            })
        } else {
            Err(ledger)
        }
    }
}

impl From<KeptLedger> for Ledger {
    ghost from_gives = { λ kept ledger. ledger.cells ≡ kept.cells };

    fn from(kept: KeptLedger) -> Ledger {
        let KeptLedger { cells } = kept;
        Ledger { cells }
    }
}
