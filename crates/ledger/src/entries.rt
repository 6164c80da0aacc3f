// The entries of a report, as they are added up.
ghost use Rattle.std.specs.Prelude.{◌≡◌, ◌+◌, ◌<◌, ◌^◌};
ghost use Rattle.ledger.specs.Reports.{first_key, entry_of, as_entry};

use blocks::statistics::Statistics;

// An entry: its counter's key, its report's time, REF, as the bit that the items give, and count.
#[derive(Clone, Copy)]
pub struct Entry {
    pub key: u64,
    pub time: u64,
    pub reference: u8,
    pub count: u64,
}

// The key of TYPE 0 among a report's counters.
pub(crate) fn first_key(report: Statistics) -> u64
    ensures { (result ≡ first_key report) × (result + 255 < 2 ^ 32) }
{
    ((report.sac as u64 * 256 + report.sic as u64) * 256 + report.service as u64) * 256
}

// An entry of 23/120 with its counter's key and its report's time.
pub(crate) fn entry_of(report: Statistics, counter: blocks::statistics::Entry) -> Entry
    ensures { as_entry result ≡ entry_of report counter }
{
    Entry {
        key: first_key(report) + counter.typ as u64,
        time: report.time as u64,
        reference: counter.reference,
        count: counter.count as u64,
    }
}
