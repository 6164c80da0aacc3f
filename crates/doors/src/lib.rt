#![tactic(auto)]

// The doors for C and Rust, as include/wear.h declares them. Each but the version's answers a refusal number; values go into 64-bit cells that the
// caller lends, and where these are too few the answer is 12 before all else.
ghost use Rattle.std.specs.Prelude.{◌||◌, [], ◌∷◌, ◌≡◌, ◌+◌, ◌≤◌, length};
ghost use Rattle.octets.specs.Numbers.{laid};
ghost use Rattle.octets.specs.Refusals.{number_of};
ghost use Rattle.octets.specs.Written.{as_written};
ghost use Rattle.octets.specs.Outcomes.{within, answer_of, output_of, listed_written, outcome_listed};
ghost use Rattle.blocks.specs.Walks.{read_listed};
ghost use Rattle.blocks.specs.Steps.{step_listed, entry_listed};
ghost use Rattle.writing.specs.Written.{rewrite_of};
ghost use Rattle.pages.specs.Pages.{old, new, tables_of, turn_of};
ghost use Rattle.doors.specs.Cell.{cell_count, feed_cell_count};
ghost use Rattle.doors.specs.Answers.{version, is_few, refusal_or, cells_or, read_cells, step_cells, entry_cells, put_refusal, put_output, put_length, cells_written, page_posted};
ghost use Rattle.doors.specs.Feeds.{is_over, feed_run, page_fed, feed_cells};

pub mod cell;
pub mod cells;
pub mod feeds;

use crate::cells::{RecordCells, record_cells};
use crate::feeds::fed_page;
use blocks::cursor::{Cursor, Found, entry};
use blocks::walk::read;
use octets::refusal::Refusal;
use pages::forms::Form;
use pages::turning::turn;
use pages::{load_kept, store_kept};
use writing::block::rewrite;

// WEAR_VERSION of include/wear.h.
pub const VERSION: u32 = 3;

// The answer where nothing is refused, and where too few cells are lent.
const ACCEPTED: u32 = 0;

const TOO_FEW_CELLS: u32 = Refusal::OutputTooShort as u32;

// The cells of a step: the offset, the next start, and the record's.
const STEP_CELLS: usize = 2 + cell::CELLS;

// Document 01's number of a refusal, as C reads it.
fn number(refusal: Refusal) -> u32
    ensures { result ≡ number_of refusal }
{
    u8::from(refusal) as u32
}

// Values into cells from one on. A store into what `first_chunk_mut` gives is no plainer: each door's proof is then written by hand.
#[tactic(auto, unfolding(octets::specs::Numbers::laid))]
fn lay(cells: &mut [u64], at: usize, values: &[u64])
    requires { at + length values.now ≤ length cells.old }
    ensures { cells.new ≡ laid cells.old at values.now }
{
    cells[at..at + values.len()].copy_from_slice(values);
}

// The version of these doors, to be compared with the header's.
pub fn wear_version() -> u32
    ensures { result ≡ version }
{
    VERSION
}

// Offset, LEN, count of records.
pub fn wear_read(s: &[u8], cells: &mut [u64]) -> u32
    ensures { (result ≡ refusal_or (is_few 3 cells.old) (read_listed s.now).refusal)
        × (cells.new ≡ cells_or (is_few 3 cells.old) cells.old (read_cells (read_listed s.now))) }
{
    if cells.len() < 3 {
        return TOO_FEW_CELLS;
    }
    match read(s) {
        Ok(reading) => {
            lay(cells, 0, &[0, reading.len as u64, reading.count as u64]);
            ACCEPTED
        }
        Err(fault) => {
            lay(cells, 0, &[fault.at as u64, 0, 0]);
            number(fault.refusal)
        }
    }
}

// Offset, next start, and the record's cells.
pub fn wear_step(s: &[u8], start: usize, cells: &mut [u64]) -> u32
    ensures { (result ≡ refusal_or (is_few (2 + cell_count) cells.old) (step_listed s.now start).refusal)
        × (cells.new ≡ cells_or (is_few (2 + cell_count) cells.old) cells.old (step_cells (step_listed s.now start))) }
{
    if cells.len() < STEP_CELLS {
        return TOO_FEW_CELLS;
    }
    let cursor = Cursor { at: start };
    match cursor.step(s) {
        Ok(step) => {
            lay(cells, 0, &[0, step.next.at as u64]);
            lay(cells, 2, &record_cells(step.taken));
            ACCEPTED
        }
        Err(fault) => {
            let mut values = [0u64; STEP_CELLS];
            values[0] = fault.at as u64;
            lay(cells, 0, &values);
            number(fault.refusal)
        }
    }
}

// Offset, and the entry's three values.
pub fn wear_entry(s: &[u8], start: usize, k: usize, cells: &mut [u64]) -> u32
    ensures { (result ≡ refusal_or (is_few 4 cells.old) (entry_listed s.now start k).refusal)
        × (cells.new ≡ cells_or (is_few 4 cells.old) cells.old (entry_cells (entry_listed s.now start k))) }
{
    if cells.len() < 4 {
        return TOO_FEW_CELLS;
    }
    match entry(s, start, k) {
        Ok(Found::Counter(c)) => {
            let values = [0, c.typ as u64, c.reference as u64, c.count as u64];
            lay(cells, 0, &values);
            ACCEPTED
        }
        Ok(Found::Version(v)) => {
            let values = [0, v.category as u64, v.main as u64, v.sub as u64];
            lay(cells, 0, &values);
            ACCEPTED
        }
        Err(fault) => {
            let values = [fault.at as u64, 0, 0, 0];
            lay(cells, 0, &values);
            number(fault.refusal)
        }
    }
}

// The refusal of what was put out, and its length into a cell.
fn put_out(written: Result<usize, Refusal>, size: &mut u64) -> u32
    ensures { (result ≡ (listed_written (as_written written)).refusal) × (size.new ≡ (listed_written (as_written written)).length) }
{
    match written {
        Ok(k) => {
            *size = k as u64;
            ACCEPTED
        }
        Err(refusal) => {
            *size = 0;
            number(refusal)
        }
    }
}

// A record's cells as a block; entries and content from the source.
pub fn wear_write(cells: &[u64], source: &[u8], out: &mut [u8], size: &mut [u64]) -> u32
    ensures { (result ≡ put_refusal (is_few cell_count cells.now || is_few 1 size.old) (within (length out.old) (cells_written cells.now source.now)))
        × (out.new ≡ put_output (is_few cell_count cells.now || is_few 1 size.old) out.old (within (length out.old) (cells_written cells.now source.now)))
        × (size.new ≡ put_length (is_few cell_count cells.now || is_few 1 size.old) size.old (within (length out.old) (cells_written cells.now source.now))) }
{
    if cells.len() < cell::CELLS {
        return TOO_FEW_CELLS;
    }
    let Some(size) = size.first_mut() else {
        return TOO_FEW_CELLS;
    };
    let record = RecordCells { cells };
    put_out(record.write(source, out), size)
}

// A block in normal form.
pub fn wear_rewrite(s: &[u8], out: &mut [u8], size: &mut [u64]) -> u32
    ensures { (result ≡ put_refusal (is_few 1 size.old) (within (length out.old) (rewrite_of s.now)))
        × (out.new ≡ put_output (is_few 1 size.old) out.old (within (length out.old) (rewrite_of s.now)))
        × (size.new ≡ put_length (is_few 1 size.old) size.old (within (length out.old) (rewrite_of s.now))) }
{
    let Some(size) = size.first_mut() else {
        return TOO_FEW_CELLS;
    };
    put_out(rewrite(s, out), size)
}

// A page of one form as a page of the other. Each door that puts out begins with its 12, which comes before all else.
fn turned_page(page: &[u8], from: Form, out: &mut [u8], to: Form, size: &mut [u64]) -> u32
    ensures { (result ≡ put_refusal (is_few 1 size.old) (within (length out.old) (turn_of (tables_of from) (tables_of to) page.now)))
        × (out.new ≡ put_output (is_few 1 size.old) out.old (within (length out.old) (turn_of (tables_of from) (tables_of to) page.now)))
        × (size.new ≡ put_length (is_few 1 size.old) size.old (within (length out.old) (turn_of (tables_of from) (tables_of to) page.now))) }
{
    let Some(size) = size.first_mut() else {
        return TOO_FEW_CELLS;
    };
    put_out(turn(page, from, out, to), size)
}

// An old page as a new one with all times unknown. This and the next are two, as C calls them by their names.
pub fn wear_page_to_new(page: &[u8], out: &mut [u8], size: &mut [u64]) -> u32
    ensures { (result ≡ put_refusal (is_few 1 size.old) (within (length out.old) (turn_of old new page.now)))
        × (out.new ≡ put_output (is_few 1 size.old) out.old (within (length out.old) (turn_of old new page.now)))
        × (size.new ≡ put_length (is_few 1 size.old) size.old (within (length out.old) (turn_of old new page.now))) }
{
    turned_page(page, Form::Old, out, Form::New, size)
}

// A new page as an old one, without the times.
pub fn wear_page_to_old(page: &[u8], out: &mut [u8], size: &mut [u64]) -> u32
    ensures { (result ≡ put_refusal (is_few 1 size.old) (within (length out.old) (turn_of new old page.now)))
        × (out.new ≡ put_output (is_few 1 size.old) out.old (within (length out.old) (turn_of new old page.now)))
        × (size.new ≡ put_length (is_few 1 size.old) size.old (within (length out.old) (turn_of new old page.now))) }
{
    turned_page(page, Form::New, out, Form::Old, size)
}

// A record of a block posted to the ledger of a page, and the ledger stored: load's refusal, post's, store's. The ledger keeps the rules by its type from
// the load on, and is not judged again.
fn posted_page(page: &[u8], s: &[u8], k: usize, out: &mut [u8]) -> Result<usize, Refusal>
    ensures { (out.new ≡ output_of out.old (within (length out.old) (page_posted page.now s.now k)))
        × (as_written result ≡ answer_of (within (length out.old) (page_posted page.now s.now k)))
        × (listed_written (as_written result) ≡ outcome_listed (within (length out.old) (page_posted page.now s.now k))) }
{
    let mut ledger = load_kept(page, Form::New)?;
    ledger.post_record(s, k)?;
    store_kept(&ledger, Form::New, out)
}

// Load, post, store: the ledger goes in and out as a page.
pub fn wear_post(page: &[u8], s: &[u8], k: usize, out: &mut [u8], size: &mut [u64]) -> u32
    ensures { (result ≡ put_refusal (is_few 1 size.old) (within (length out.old) (page_posted page.now s.now k)))
        × (out.new ≡ put_output (is_few 1 size.old) out.old (within (length out.old) (page_posted page.now s.now k)))
        × (size.new ≡ put_length (is_few 1 size.old) size.old (within (length out.old) (page_posted page.now s.now k))) }
{
    let Some(size) = size.first_mut() else {
        return TOO_FEW_CELLS;
    };
    put_out(posted_page(page, s, k, out), size)
}

// The blocks at hand of a feed posted to the ledger of a page, and the ledger stored; `more` is 0 where the input ends with them.
pub fn wear_feed(page: &[u8], s: &[u8], more: u32, out: &mut [u8], cells: &mut [u64]) -> u32
    ensures { (result ≡ put_refusal (is_few feed_cell_count cells.old) (within (length out.old) (page_fed page.now s.now (is_over more))))
        × (out.new ≡ put_output (is_few feed_cell_count cells.old) out.old (within (length out.old) (page_fed page.now s.now (is_over more))))
        × (cells.new ≡ cells_or (is_few feed_cell_count cells.old) cells.old (feed_cells (within (length out.old) (page_fed page.now s.now (is_over more))) (feed_run page.now s.now (is_over more)))) }
{
    if cells.len() < cell::FEED_CELLS {
        return TOO_FEW_CELLS;
    }
    match fed_page(page, s, more == 0, out) {
        Ok(fed) => {
            lay(cells, 0, &fed.cells());
            ACCEPTED
        }
        Err(refusal) => {
            lay(cells, 0, &[0u64; cell::FEED_CELLS]);
            number(refusal)
        }
    }
}
