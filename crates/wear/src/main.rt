#![tactic(auto)]

// Reads a feed on standard input, posts the statistics reports of its blocks to a fresh ledger, and prints the ledger and the totals. With an
// argument, whatever it is, refused blocks are told. What went wrong is told on standard error, from which the launcher makes an exit status.
ghost use Rattle.std.specs.Prelude.{List, [], ◌≡◌, ℕ, length};
ghost use Rattle.ledger.specs.Ledgers.{cells_of};
ghost use Rattle.wear.specs.Turns.{Worn, Left, Turns};

mod input;
mod reads;
mod sheet;
mod tells;

use crate::input::{Turn, take_turn};
use crate::reads::{Going, Reads};
use feed::totals::ZEROS;
use ledger::kept::KeptLedger;
use std::env::{Env, FillError};
use std::io::Stdin;

// Turns until the run is over or a read fails. A proved loop has to end, and nothing says that the input does: it has a number of turns that no
// run uses up.
fn turns(stdin: Stdin, buffer: &mut [u8], ledger: &mut KeptLedger, tells: bool) -> Turn
    requires { (length buffer.old ≡ 131072) × (ledger.old.cells ≡ cells_of []) }
    ensures { Turns buffer.new ledger.new.cells result }
{
    let mut now = Turn {
        from: 0,
        to: 0,
        used: 0,
        totals: ZEROS,
        going: Going::On,
        reads: Reads::none(),
    };
    'turns: for _ in 0..u64::MAX {
        now = take_turn(stdin, buffer, ledger, tells, now);
        if now.going != Going::On {
            return now;
        }
    }
    now
}

// Where the run stopped and why, at once; and, when the input has come to its end, how many octets were not read.
fn tell_stop(stdin: Stdin, buffer: &mut [u8], last: Turn)
    requires { (feed : List ℕ) × Left feed buffer.old last }
{
    tells::say_stopped(buffer, last);
    let mut all = last.reads;
    all.read_on(stdin, buffer);
    tells::say_unread(all, last);
}

// The ledger and the last turn stay two, as the turn is told on its own too.
fn print(ledger: &KeptLedger, last: Turn)
    requires { (feed : List ℕ) × Worn feed ledger.now.cells last }
{
    if !sheet::print(ledger, last) {
        io::write_all(2, b"wear: failed: standard output could not be written\n");
    }
}

// Whether the program was given an argument, whatever it is: it is not read, and need not fit.
fn is_given(rt: &HostRuntime) -> bool {
    !matches!(rt.arg(1, &mut []), Err(FillError::NotPresent))
}

// One buffer that holds the longest block twice over, and one ledger, whatever the length of the input.
fn main(rt: HostRuntime) {
    let stdin = rt.stdin();
    let mut buffer = [0u8; 131072];
    let mut ledger = KeptLedger::fresh();
    let tells = is_given(&rt);
    let last = turns(stdin, &mut buffer, &mut ledger, tells);
    match last.going {
        Going::Over => {
            print(&ledger, last);
        }
        Going::Stopped => {
            print(&ledger, last);
            tell_stop(stdin, &mut buffer, last);
        }
        Going::On | Going::Failed => {
            io::write_all(
                2,
                b"wear: failed: standard input could not be read to its end; nothing is printed\n",
            );
        }
    }
}
