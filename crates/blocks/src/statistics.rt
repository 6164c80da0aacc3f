// What the ledger asks of a record, in plain numbers and by names of this layer, as it sees no layer below.
ghost use Rattle.std.specs.Prelude.{◌≡◌, ◌+◌, ◌*◌, ◌≤◌, ◌<◌, length};
ghost use Rattle.layouts.specs.Categories.{cat23};
ghost use Rattle.blocks.specs.Statistics.{is_report, is_statistics, numbers_of, statistics_of, seen_of, listed_seen, seen_listed, report_entry};
ghost use Rattle.blocks.specs.Steps.{take_of, entry_group_of};
ghost use Rattle.blocks.specs.declared.cursor.Cursor.{Cursor};
ghost use Rattle.blocks.specs.Step.{Taken};
ghost use Rattle.blocks.specs.Seen.{as_seen};
ghost use Rattle.blocks.specs.declared.record.Record.{Record};

use crate::block::Block;
use crate::marks::is_marked;
use crate::record::Record;
use items::item::{counter_at, octet_at, place_at, service_at, source_at, time_at};
use items::typed::{LATEST, Place, Service, Source, TimeOfDay};
use layouts::category::{Cat23, Category};
use layouts::ends::Window;
use layouts::form::Form;

// An entry of 23/120: TYPE, REF and count.
pub use items::typed::Counter as Entry;

// The source, the octet of 23/015, the time, the offset of the first entry of 23/120 and how many there are.
#[derive(Clone, Copy)]
pub struct Statistics {
    pub sac: u8,
    pub sic: u8,
    pub service: u8,
    pub time: u32,
    pub at: usize,
    pub count: usize,
}

// A record of category 23 as the ledger sees it: its numbers, where it is a statistics report; and the next start.
#[derive(Clone, Copy)]
pub struct Seen {
    pub report: Option<Statistics>,
    pub next: usize,
}

// The category that statistics reports are of, and the greatest time that one may have.
pub const CATEGORY: u8 = Cat23::CAT;

pub const LATEST_TIME: u32 = LATEST;

// Whether a record is a statistics report: its category, its type, and the marks of 010, 015 and 120.
fn is_report(cat: u8, message_type: u8, marks: u32) -> bool
    ensures { result ≡ is_report cat message_type marks }
{
    cat == CATEGORY
        && message_type == Cat23::STATISTICS
        && is_marked(marks, Cat23::F010)
        && is_marked(marks, Cat23::F015)
        && is_marked(marks, Cat23::F120)
}

// The same of a typed record.
pub fn is_statistics(record: Record) -> bool
    ensures { result ≡ is_statistics «record» }
{
    is_report(record.category, record.message_type, record.marks)
}

// The numbers of a report, of its items: SID and STYP have four bits.
fn numbers_of(source: Source, service: Service, time: TimeOfDay, entries: Place) -> Statistics
    requires { (service.sid < 16) × (service.styp < 16) }
    ensures { result ≡ numbers_of source service time entries }
{
    Statistics {
        sac: source.sac,
        sic: source.sic,
        service: service.sid * 16 + service.styp,
        time: time.0,
        at: entries.at,
        count: entries.count,
    }
}

// A record's numbers. Only for the next layer: SID and STYP have four bits, as in every record that a step hands out.
pub fn statistics_of(record: Record) -> Statistics
    requires { («record».service.sid < 16) × («record».service.styp < 16) }
    ensures { result ≡ statistics_of «record» }
{
    numbers_of(record.source, record.service, record.time, record.entries)
}

// Entry k of those that lie from an offset. Only for the next layer: it lies in the slice.
pub fn counter(s: &[u8], at: usize, k: usize) -> Entry
    requires { at + k * (entry_group_of cat23.cat).wide + (entry_group_of cat23.cat).wide ≤ length s.now }
    ensures { result ≡ report_entry s.now at k }
{
    // Of its own octets alone: that they lie in the slice is known, and is not asked for each entry.
    let from = at + k * Cat23::ENTRY;
    counter_at(&s[from..from + Cat23::ENTRY], 0)
}

// The record at an offset of a block of category 23 that was accepted, as the ledger sees it: no typed record is made of it. Only for the next
// layer, which judges a block once; what a step takes there is what is seen.
pub fn see(s: &[u8], len: usize, at: usize) -> Seen
    requires { (at < len) × (len ≤ length s.now) }
    ensures { (t : Record) → (c : Cursor) → take_of s.now len cat23.cat at ≡ Taken t c → (as_seen result ≡ seen_of t c.at) × (listed_seen (as_seen result) ≡ seen_listed t c.at) }
{
    let block = Block {
        window: Window { octets: s, len },
        cat: Cat23::CAT,
    };
    let starts = block.starts_at(at);
    let message_type = octet_at(s, starts.of(Form::MessageType));
    let report = if is_report(Cat23::CAT, message_type, starts.marks) {
        let source = source_at(s, starts.of(Form::Source));
        let service = service_at(s, starts.of(Form::Service));
        let time = time_at(s, starts.of(Form::Time));
        let entries = place_at(s, starts.of(Form::Statistics), 0);
        Some(numbers_of(source, service, time, entries))
    } else {
        None
    };
    Seen {
        report,
        next: starts.end,
    }
}
