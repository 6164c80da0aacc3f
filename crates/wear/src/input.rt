// The octets of a feed as they come.
ghost use Rattle.std.specs.Prelude.{◌≡◌, ◌-◌, ◌≤◌, length, take, drop};
ghost use Rattle.ledger.specs.Ledgers.{rows_of};
ghost use Rattle.feed.specs.Runs.{state, run_over};
ghost use Rattle.wear.specs.Turns.{going_of, Waiting, Ran, Turned};

use crate::reads::{Going, Reads, more};
use crate::tells::tell_skipped;
use feed::run::{Ending, run};
use feed::totals::Totals;
use ledger::kept::KeptLedger;
use std::io::Stdin;

// Between which offsets of the buffer octets wait, how many the run has used before them, up to 2^64 - 1, what has been counted, whether the run
// goes on, and what the reads have given. The buffer is lent beside it, and on no heap.
#[derive(Clone, Copy)]
pub struct Turn {
    pub from: usize,
    pub to: usize,
    pub used: u64,
    pub totals: Totals,
    pub going: Going,
    pub reads: Reads,
}

// Moves what stands between two offsets to the front of the buffer, and tells how much it is. What stands there already is not copied: a block that
// comes in many reads would be copied with each.
fn keep(buffer: &mut [u8], from: usize, to: usize) -> usize
    requires { (from ≤ to) × (to ≤ length buffer.old) }
    ensures { (result ≡ to - from) × (take result buffer.new ≡ drop from (take to buffer.old)) }
{
    if 0 < from {
        buffer.copy_within(from..to, 0);
    }
    to - from
}

// Whether the run goes on, by how it left off.
impl From<Ending> for Going {
    ghost from_gives = { λ ending going. going ≡ going_of ending };

    fn from(ending: Ending) -> Going {
        match ending {
            Ending::More => Going::On,
            Ending::Ended => Going::Over,
            Ending::Stopped => Going::Stopped,
        }
    }
}

// A run over the octets at the front of the buffer; what it leaves of them waits. The blocks that it skips are told before, where that is asked for.
fn run_front(
    s: &[u8],
    is_over: bool,
    tells: bool,
    ledger: &mut KeptLedger,
    before: Turn,
    reads: Reads,
) -> Turn
    ensures { Ran s.now
        (run_over s.now is_over (state (rows_of ledger.old.cells) before.totals))
        ledger.new.cells before.used reads result }
{
    if tells {
        tell_skipped(s, is_over, before.used);
    }
    let done = run(ledger, s, is_over, before.totals);
    Turn {
        from: done.at,
        to: s.len(),
        used: more(before.used, done.at),
        totals: done.totals,
        going: done.ending.into(),
        reads,
    }
}

// What waits goes to the front, one read comes behind it, and a run goes over both. A read of nothing is the end of the input; one that fails is not.
pub(crate) fn take_turn(
    stdin: Stdin,
    buffer: &mut [u8],
    ledger: &mut KeptLedger,
    tells: bool,
    before: Turn,
) -> Turn
    requires { Waiting before buffer.old }
    ensures { Turned before buffer.old
        ledger.old.cells
        buffer.new ledger.new.cells result }
{
    let mut reads = before.reads;
    let held = keep(buffer, before.from, before.to);
    match reads.read_behind(stdin, buffer, held) {
        Some(n) => run_front(&buffer[..held + n], n == 0, tells, ledger, before, reads),
        None => Turn {
            from: 0,
            to: held,
            going: Going::Failed,
            reads,
            ..before
        },
    }
}
