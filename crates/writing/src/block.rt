// A record written as a block, and a block rewritten in normal form.
ghost use Rattle.std.specs.Prelude.{◌≡◌, ◌+◌, ◌≤◌, ◌<◌, length};
ghost use Rattle.octets.specs.Numbers.{laid};
ghost use Rattle.octets.specs.Written.{as_written};
ghost use Rattle.octets.specs.Outcomes.{within, answer_of, output_of, listed_written, outcome_listed};
ghost use Rattle.writing.specs.Written.{header_octets, normal_at, write_of, rewrite_of};

use crate::judged::Judged;
use crate::record::record_size;
use blocks::block::Block;
use blocks::cursor::Cursor;
use blocks::record::Record;
use blocks::walk::read;
use layouts::ends::Window;
use octets::refusal::Refusal;

// The octets of CAT and LEN.
const HEADER: usize = 3;

// Writes CAT and LEN.
fn put_header(out: &mut [u8], cat: u8, len: usize)
    requires { (3 ≤ length out.old) × (len < 65536) }
    ensures { out.new ≡ laid out.old 0 (header_octets cat len) }
{
    out[0] = cat;
    octets::write(out, 1, 2, len as u64);
}

// Writes one typed record, its entries and content in the source, as a block; judged whole before an octet is written.
pub fn write(record: Record, source: &[u8], out: &mut [u8]) -> Result<usize, Refusal>
    ensures { (out.new ≡ output_of out.old (within (length out.old) (write_of source.now «record»)))
        × (as_written result ≡ answer_of (within (length out.old) (write_of source.now «record»)))
        × (listed_written (as_written result) ≡ outcome_listed (within (length out.old) (write_of source.now «record»))) }
{
    let size = record_size(record, source)? + HEADER;
    if out.len() < size {
        return Err(Refusal::OutputTooShort);
    }
    put_header(out, record.category, size);
    let judged = Judged {
        typed: record,
        source,
    };
    judged.put(out, HEADER);
    Ok(size)
}

// How many octets the records of a block have in normal form, up to the first that is refused. A walk of its own, as all is judged before an octet is
// written; one over both would ask at each record which it is.
fn normal_size(block: &Block) -> usize
    ensures { result ≡ length (normal_at block.now.window.octets.now block.now.window.len block.now.cat 3) }
{
    let mut total: usize = 0;
    let mut cursor = Cursor::first();
    while cursor.at < block.window.len {
        let Ok(step) = block.take(cursor.at) else {
            return total;
        };
        let Ok(size) = record_size(step.taken, block.window.octets) else {
            return total;
        };
        total += size;
        cursor = step.next;
    }
    total
}

// Writes the records of a block in normal form behind the header, up to the first that is refused.
fn put_records(out: &mut [u8], block: &Block)
    requires { 3 + length (normal_at block.now.window.octets.now block.now.window.len block.now.cat 3) ≤ length out.old }
    ensures { out.new ≡ laid out.old 3 (normal_at block.now.window.octets.now block.now.window.len block.now.cat 3) }
{
    let mut p = HEADER;
    let mut cursor = Cursor::first();
    while cursor.at < block.window.len {
        let Ok(step) = block.take(cursor.at) else {
            return;
        };
        let judged = Judged {
            typed: step.taken,
            source: block.window.octets,
        };
        p = judged.put(out, p);
        cursor = step.next;
    }
}

// Rewrites an accepted block: its records in normal form, in their order, as one block.
pub fn rewrite(s: &[u8], out: &mut [u8]) -> Result<usize, Refusal>
    ensures { (out.new ≡ output_of out.old (within (length out.old) (rewrite_of s.now)))
        × (as_written result ≡ answer_of (within (length out.old) (rewrite_of s.now)))
        × (listed_written (as_written result) ≡ outcome_listed (within (length out.old) (rewrite_of s.now))) }
{
    let reading = read(s)?;
    let window = Window {
        octets: s,
        len: reading.len,
    };
    let block = Block { window, cat: s[0] };
    let total = normal_size(&block) + HEADER;
    if out.len() < total {
        return Err(Refusal::OutputTooShort);
    }
    put_header(out, block.cat, total);
    put_records(out, &block);
    Ok(total)
}
