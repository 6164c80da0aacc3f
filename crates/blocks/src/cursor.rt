// One record at a time: the cursor of a block, and one entry of a record.
ghost use Rattle.std.specs.Prelude.{◌≡◌, ◌+◌, ◌*◌, ◌≤◌, ◌<◌, length};
ghost use Rattle.blocks.specs.Step.{as_step};
ghost use Rattle.blocks.specs.Found.{as_found};
ghost use Rattle.blocks.specs.Steps.{step_of, listed_step, step_listed, entry_group_of, entry_in, entry_of, listed_entry, entry_listed};
ghost use Rattle.blocks.specs.InBlock.{take_in};

use crate::block::Block;
use crate::fault::Fault;
use crate::header::header;
use crate::record::Record;
use crate::walk::{Walked, record_walk};
use items::item::{counter_at, version_at};
use items::typed::{Counter, Place, Version};
use layouts::category::{Cat23, Cat242, Category};
use octets::refusal::Refusal;

// Where a record starts.
#[derive(Clone, Copy)]
pub struct Cursor {
    pub at: usize,
}

// One record, and the cursor behind it.
#[derive(Clone, Copy)]
pub struct Taken {
    pub taken: Record,
    pub next: Cursor,
}

// One entry of 23/120 or of 242/550.
#[derive(Clone, Copy)]
pub enum Found {
    Counter(Counter),
    Version(Version),
}

impl<'a> Block<'a> {
    // A step inside the block. For the next layer, which judges the header once for all steps.
    pub fn take(&self, at: usize) -> Result<Taken, Fault>
        requires { at < self.now.window.len }
        ensures { as_step result ≡ take_in self.now at }
    {
        let walked = record_walk(self, Walked { at, count: 0 }, 1)?;
        Ok(Taken {
            taken: self.typed_record(at),
            next: Cursor { at: walked.at },
        })
    }
}

impl Cursor {
    // The start of a block's first record.
    pub fn first() -> Cursor
        ensures { result.at ≡ 3 }
    {
        Cursor { at: 3 }
    }

    // One record: the header first; 17 for a start below 3, or at or past LEN; any other is read as if a record began there.
    pub fn step(self, s: &[u8]) -> Result<Taken, Fault>
        ensures { (as_step result ≡ step_of s.now self.at) × (listed_step (as_step result) ≡ step_listed s.now self.at) }
    {
        let block = header(s)?;
        if self.at < 3 || block.window.len <= self.at {
            return Err(Fault::from(Refusal::NoSuch));
        }
        block.take(self.at)
    }
}

// Entry k of a typed record whose entries lie in the octets.
fn entry_in(s: &[u8], cat: u8, entries: Place, k: usize) -> Result<Found, Fault>
    requires { entries.at + entries.count * (entry_group_of cat).wide ≤ length s.now }
    ensures { as_found result ≡ entry_in s.now cat entries.at entries.count k }
{
    if entries.count <= k {
        return Err(Fault::from(Refusal::NoSuch));
    }
    Ok(if cat == Cat242::CAT {
        Found::Version(version_at(s, entries.at + k * Cat242::ENTRY))
    } else {
        Found::Counter(counter_at(s, entries.at + k * Cat23::ENTRY))
    })
}

// Entry k, from 0, of the record that starts at an offset: a step's refusals, then 17.
pub fn entry(s: &[u8], start: usize, k: usize) -> Result<Found, Fault>
    ensures { (as_found result ≡ entry_of s.now start k) × (listed_entry (as_found result) ≡ entry_listed s.now start k) }
{
    let record = Cursor { at: start }.step(s)?.taken;
    entry_in(s, record.category, record.entries, k)
}
