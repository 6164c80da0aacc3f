// The records of a block, one after the other: the record walk and the item walk call each other.
ghost use Rattle.std.specs.Prelude.{◌≡◌, ◌≤◌, ◌<◌, length};
ghost use Rattle.octets.specs.Choice.{pick};
ghost use Rattle.layouts.specs.Offsets.{trace_at};
ghost use Rattle.layouts.specs.Layouts.{format};
ghost use Rattle.layouts.specs.Tables.{layout};
ghost use Rattle.layouts.specs.Categories.{category};
ghost use Rattle.items.specs.Typed.{val};
ghost use Rattle.blocks.specs.Records.{marks_refusal, is_type};
ghost use Rattle.blocks.specs.Walked.{as_walked};
ghost use Rattle.blocks.specs.Reading.{as_reading};
ghost use Rattle.blocks.specs.Walks.{answer_of, read_of, listed_reading, read_listed};
ghost use Rattle.blocks.specs.InBlock.{records_in, run_in, rest_in};

use crate::block::Block;
use crate::fault::Fault;
use crate::header::header;
use crate::marks::{marks_at, marks_refusal, next_field};
use crate::presence::is_present;
use items::item::{octet_at, pass};
use layouts::category::{field_of, most_of};
use layouts::form::Form;
use octets::refusal::Refusal;

// Where a run of records stands, and how many it has passed.
#[derive(Clone, Copy)]
pub(crate) struct Walked {
    pub at: usize,
    pub count: usize,
}

// LEN, and the count of records.
#[derive(Clone, Copy)]
pub struct Reading {
    pub len: usize,
    pub count: usize,
}

// How many records the two walks pass before they answer; a loop goes on. More would be a deeper run of calls, whose returns a processor
// does not foresee.
const RUN: usize = 1;

// A record's type behind an item of a form that starts at an offset: of item 000 its octet, else the type so far.
fn type_behind(s: &[u8], at: usize, form: Form, so_far: u8) -> u8
    ensures { result ≡ pick (is_type form) (val (trace_at (format (layout form)) s.now at) 0 0) so_far }
{
    match form {
        Form::MessageType => octet_at(s, at),
        _ => so_far,
    }
}

// From where a run stands, at most so many records; or the first refusal, and the offset of its record.
#[cycle(item_walk_record_walk)]
pub(crate) fn record_walk(block: &Block, from: Walked, budget: usize) -> Result<Walked, Fault>
    requires { (from.at ≤ block.now.window.len) × (from.count ≤ from.at) }
    ensures { as_walked result ≡ run_in block.now budget from }
{
    let at = from.at;
    if budget == 0 || block.window.len <= at {
        return Ok(from);
    }
    // By `match` here and in the item walk, since `map_err` with `?` was tried and is slower.
    match block.window.specification_end(at, most_of(block.cat)) {
        Err(refusal) => Err(Fault { refusal, at }),
        Ok(p) => {
            let marks = marks_at(block.window.octets, at, p);
            match marks_refusal(block.cat, marks) {
                Err(refusal) => Err(Fault { refusal, at }),
                Ok(()) => item_walk(block, marks, 1, p, 0, from, budget - 1),
            }
        }
    }
}

// From a record's field on, whose item starts at an offset, and then the records behind it. One item is passed, and the next field's; behind the
// last it is the record walk's turn.
#[cycle(item_walk_record_walk)]
fn item_walk(
    block: &Block,
    marks: u32,
    field: usize,
    at: usize,
    so_far: u8,
    from: Walked,
    budget: usize,
) -> Result<Walked, Fault>
    requires { (at ≤ block.now.window.len) × (from.count < at) × (1 ≤ field) × (field ≤ 33) × (marks_refusal (category block.now.cat) marks ≡ 0) }
    ensures { as_walked result ≡ rest_in block.now marks field at so_far budget from }
{
    let Some(f) = next_field(marks, field) else {
        return if is_present(block.cat, so_far, marks) {
            let count = from.count + 1;
            record_walk(block, Walked { at, count }, budget)
        } else {
            Err(Fault {
                refusal: Refusal::PresenceBroken,
                at: from.at,
            })
        };
    };
    let what = field_of(block.cat, f);
    match pass(&block.window, at, what) {
        Err(refusal) => Err(Fault {
            refusal,
            at: from.at,
        }),
        Ok(q) => {
            let message_type = type_behind(block.window.octets, at, what.0, so_far);
            item_walk(block, marks, f + 1, q, message_type, from, budget)
        }
    }
}

// A block's records: LEN and their count, or the first refusal.
pub fn read(s: &[u8]) -> Result<Reading, Fault>
    ensures { (as_reading result ≡ read_of s.now) × (listed_reading (as_reading result) ≡ read_listed s.now) }
{
    let block = header(s)?;
    read_records(&block)
}

// Run after run, so that the depth of calls does not grow with the number of records.
fn read_records(block: &Block) -> Result<Reading, Fault>
    requires { 3 ≤ block.now.window.len }
    ensures { as_reading result ≡ answer_of block.now.window.len (records_in block.now) }
{
    let mut walked = Walked { at: 3, count: 0 };
    while walked.at < block.window.len {
        walked = record_walk(block, walked, RUN)?;
    }
    Ok(Reading {
        len: block.window.len,
        count: walked.count,
    })
}
