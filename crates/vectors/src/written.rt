// What is written to a lent output: its answer, whether the octets behind it stayed, and the octets.
use crate::Text;
use crate::case::{Case, unknown};
use crate::ledgers::ledger_of;
use crate::operation::Operation;
use doors::cells::RecordCells;
use octets::refusal::Refusal;
use pages::{store, to_new, to_old};
use writing::block::rewrite;

// The most octets of an output.
const MOST: usize = 65540;

// Each octet of an output before it is lent.
const LENT: u8 = 0xA5;

// Whether every octet from an offset on is as it was lent.
fn kept(out: &[u8], from: usize) -> bool {
    out.iter().skip(from).all(|octet| *octet == LENT)
}

// Refusal, length, whether the rest stayed, and the octets, where there are some; a length past the output, which no answer has, is
// said without them.
fn say_written(text: &mut Text, out: &[u8], answer: Result<usize, Refusal>) {
    let (n, len) = match answer {
        Ok(len) => (0, len),
        Err(refusal) => (u8::from(refusal), 0),
    };
    text.number(u64::from(n));
    text.more(&[len as u64, kept(out, len) as u64]);
    if 0 < len && len <= out.len() {
        text.emit(b' ');
        text.hex(&out[..len]);
    }
}

// The case's operation on a lent output.
fn written(s: &[u8], out: &mut [u8], case: Case) -> Result<usize, Refusal> {
    match case.operation {
        Operation::Rewrite => rewrite(s, out),
        Operation::Store => store(ledger_of(s), out),
        Operation::ToNew => to_new(s, out),
        Operation::ToOld => to_old(s, out),
        _ => RecordCells { cells: &case.cells }.write(s, out),
    }
}

// The answer to a case of writing, its first number the room; too much of it is no case.
pub(crate) fn say_output(s: &[u8], text: &mut Text, case: Case) {
    if MOST < case.first {
        return unknown(text);
    }
    let mut out = [LENT; MOST];
    let lent = &mut out[..case.first];
    let answer = written(s, lent, case);
    say_written(text, lent, answer);
}
