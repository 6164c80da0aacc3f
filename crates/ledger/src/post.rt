// A statistics report posted to a ledger: all or nothing.
ghost use Rattle.std.specs.Prelude.{◌≡◌, OnOk, true, false, ◌+◌, ◌≤◌, ◌<◌, ◌^◌, leb};
ghost use Rattle.octets.specs.Choice.{pick};
ghost use Rattle.octets.specs.Refusals.{refusal_in, life_passes};
ghost use Rattle.blocks.specs.Step.{as_step};
ghost use Rattle.rows.specs.Rows.{add_up, row_of, has};
ghost use Rattle.rows.specs.Posting.{counts, rows_for, passes, add_all};
ghost use Rattle.ledger.specs.Answer.{as_answer};
ghost use Rattle.ledger.specs.Ledgers.{rows_of, changed, answer};
ghost use Rattle.ledger.specs.Reports.{first_key, report_in, report_of, step_at};
ghost use Rattle.ledger.specs.Entries.{entries_in};
ghost use Rattle.ledger.specs.Posts.{posted_to, post_of};
ghost use Rattle.ledger.specs.Steps.{Noted, Known, Lies};

use crate::cells::{ROWS, count_of, row_at};
use crate::entries::{entry_of, first_key};
use crate::kept::KeptLedger;
use crate::places::add_at;
use crate::report::Report;
use crate::rules::is_kept;
use crate::{Answer, Ledger};
use blocks::cursor::{Cursor, Taken};
use blocks::fault::Fault;
use blocks::record::Record;
use blocks::statistics::{is_statistics, statistics_of};
use blocks::walk::read;
use octets::refusal::Refusal;

// Below this no report brings a life count to its end: it adds less than 2^40.
const NEAR: u64 = 0xFFFF_FF00_0000_0000;

impl KeptLedger {
    // How many rows a key would add: one where it has none.
    fn new_rows(&self, key: u64) -> usize
        ensures { result ≡ pick (has (row_of (rows_of self.now.cells) key)) 0 1 }
    {
        match self.find(key) {
            Ok(_) => 0,
            Err(_) => 1,
        }
    }

    // Whether there is room for all new counters of a report, each counted once.
    fn has_room(&self, report: &Report) -> bool
        ensures { result ≡ leb (rows_for (rows_of self.now.cells) (entries_in report.now)) 256 }
    {
        let mut rows = count_of(&self.cells);
        if rows + report.numbers.count <= ROWS {
            return true;
        }
        let first = first_key(report.numbers);
        let mut counted = [false; 256];
        for i in 0..report.numbers.count {
            let entry = report.entry(i);
            let typ = entry.typ as usize;
            if !counted[typ] {
                counted[typ] = true;
                rows += self.new_rows(first + entry.typ as u64);
            }
        }
        rows <= ROWS
    }

    // Adds up a report's entries in turn, until a life count would pass: 15, and the ledger is of no use. The caller has seen that there is room.
    fn add_all(&mut self, report: &Report) -> Result<(), Refusal>
        requires { rows_for (rows_of self.old.cells) (entries_in report.now) ≤ 256 }
        ensures refused { refusal_in result ≡ pick (passes add_up (rows_of self.old.cells) (entries_in report.now)) life_passes 0 }
        ensures added { OnOk result (self.new.cells ≡ changed (λ rows. add_all add_up rows (entries_in report.now)) self.old.cells) }
    {
        for i in 0..report.numbers.count {
            let entry = report.entry(i);
            self.add_entry(entry_of(report.numbers, entry))?;
        }
        Ok(())
    }

    // Notes the places of a report's counters, by TYPE, where their life counts are far from the end; what else is noted stays. Their rows stand
    // side by side, so that a search is made once, and not for each entry.
    fn note_rows(&self, first: u64, places: &mut [Option<u16>; 256])
        requires { (first + 255 < 2 ^ 32) × Noted self.now.cells first places.old }
        ensures { Noted self.now.cells first places.new }
    {
        let (Ok(from) | Err(from)) = self.find(first);
        for place in from..count_of(&self.cells) {
            let row = row_at(&self.cells, place);
            if first + 255 < row.key {
                return;
            }
            if row.life < NEAR {
                places[(row.key - first) as usize] = Some(place as u16);
            }
        }
    }

    // Whether each counter of a report has a row whose life count is far from its end. Then `places` has the row's place, by TYPE.
    fn all_known(&self, report: &Report, places: &mut [Option<u16>; 256]) -> bool
        requires { Noted self.now.cells (first_key report.now.numbers) places.old }
        ensures { result ≡ true → Known self.now.cells report.now.octets.now report.now.numbers places.new }
    {
        if report.numbers.count > 255 {
            return false;
        }
        self.note_rows(first_key(report.numbers), places);
        (0..report.numbers.count).all(|i| places[report.entry(i).typ as usize].is_some())
    }

    // Posts the usual report, whose counters all have rows far from their end; or leaves the ledger as it is, and answers false.
    fn post_known(&mut self, report: &Report) -> bool
        ensures posted { result ≡ true → answer 0 self.new.cells ≡ posted_to self.old.cells (counts (entries_in report.now)) }
        ensures stays { result ≡ false → self.new.cells ≡ self.old.cells }
    {
        let mut places = [None; 256];
        if !self.all_known(report, &mut places) {
            return false;
        }
        for i in 0..report.numbers.count {
            let entry = report.entry(i);
            let place = places[entry.typ as usize].unwrap();
            add_at(
                &mut self.cells,
                place as usize,
                entry_of(report.numbers, entry),
            );
        }
        true
    }

    // Posts any report: it is judged whole, on a copy, before the ledger changes.
    fn post_any(&mut self, report: &Report) -> Result<(), Refusal>
        ensures { answer (refusal_in result) self.new.cells ≡ posted_to self.old.cells (counts (entries_in report.now)) }
    {
        if !self.has_room(report) {
            return Err(Refusal::NoRoom);
        }
        let mut after = KeptLedger { cells: self.cells };
        after.add_all(report)?;
        *self = after;
        Ok(())
    }

    // A statistics report posted: 14, 15. For the next layer.
    pub fn post_report(&mut self, report: &Report) -> Result<(), Refusal>
        ensures { answer (refusal_in result) self.new.cells ≡ posted_to self.old.cells (counts (entries_in report.now)) }
    {
        if self.post_known(report) {
            Ok(())
        } else {
            self.post_any(report)
        }
    }

    // A typed record of the octets posted, which a step handed out: 13, 14, 15.
    fn post_taken(&mut self, s: &[u8], record: Record) -> Result<(), Refusal>
        requires { Lies s.now «record» }
        ensures { answer (refusal_in result) self.new.cells ≡ posted_to self.old.cells (report_in s.now «record») }
    {
        if !is_statistics(record) {
            return Err(Refusal::NotStatistics);
        }
        self.post_report(&Report {
            octets: s,
            numbers: statistics_of(record),
        })
    }

    // Record k of a block posted: the reader's refusals, 17, 13, 14, 15. A refusal leaves the ledger as it stood. For the next layer.
    pub fn post_record(&mut self, s: &[u8], k: usize) -> Result<(), Refusal>
        ensures { answer (refusal_in result) self.new.cells ≡ posted_to self.old.cells (report_of s.now k) }
    {
        read(s)?;
        let step = step_to(s, k)?;
        self.post_taken(s, step.taken)
    }
}

// Record k of a block, from 0: k steps from the first, and one that hands it out.
fn step_to(s: &[u8], k: usize) -> Result<Taken, Fault>
    ensures { as_step result ≡ step_at s.now k 3 }
{
    let mut cursor = Cursor::first();
    for _ in 0..k {
        cursor = cursor.step(s)?.next;
    }
    cursor.step(s)
}

// Record k of a block posted to a ledger: 16, the reader's refusals, 17, 13, 14, 15. A refused post gives the ledger back unchanged.
pub fn post(ledger: Ledger, s: &[u8], k: usize) -> Answer
    ensures { as_answer result ≡ post_of ledger.cells s.now k }
{
    // Judged where it stands: `KeptLedger::of` would move it into its answer, and out of that.
    if !is_kept(&ledger.cells) {
        return Answer {
            answer: Err(Refusal::RulesBroken),
            ledger,
        };
    }
    let mut kept = KeptLedger {
        cells: ledger.cells,
    };
    let answer = kept.post_record(s, k);
    Answer {
        answer,
        ledger: Ledger::from(kept),
    }
}
