// The answers of the layers, as lines of numbers.
use crate::Text;
use crate::case::{Case, Line, next, unknown};
use crate::feeds::say_feed;
use crate::ledgers::{say_loading, say_posting};
use crate::operation::Operation;
use crate::written::say_output;
use blocks::cursor::{Cursor, Found, Taken};
use blocks::fault::Fault;
use blocks::walk::Reading;
use doors::cell::CELLS;
use doors::cells::record_cells;

// What a step has behind its offset: the next start, and the cells of a record.
const BEHIND: usize = 1 + CELLS;

// Refusal and offset.
fn say_fault(text: &mut Text, fault: Fault) {
    text.number(u64::from(u8::from(fault.refusal)));
    text.more(&[fault.at as u64]);
}

// Refusal, offset, LEN and count.
fn say_reading(text: &mut Text, answer: Result<Reading, Fault>) {
    match answer {
        Ok(reading) => {
            text.number(0);
            text.more(&[0, reading.len as u64, reading.count as u64]);
        }
        Err(fault) => {
            say_fault(text, fault);
            text.more(&[0, 0]);
        }
    }
}

// Refusal, offset, the next start, and the record.
fn say_step(text: &mut Text, answer: Result<Taken, Fault>) {
    match answer {
        Ok(step) => {
            text.number(0);
            text.more(&[0, step.next.at as u64]);
            text.more(&record_cells(step.taken));
        }
        Err(fault) => {
            say_fault(text, fault);
            text.more(&[0; BEHIND]);
        }
    }
}

// Refusal, offset, and the entry's three values.
fn say_entry(text: &mut Text, answer: Result<Found, Fault>) {
    match answer {
        Ok(Found::Counter(c)) => {
            text.number(0);
            text.more(&[0, c.typ as u64, c.reference as u64, c.count as u64]);
        }
        Ok(Found::Version(v)) => {
            text.number(0);
            text.more(&[0, v.category as u64, v.main as u64, v.sub as u64]);
        }
        Err(fault) => {
            say_fault(text, fault);
            text.more(&[0, 0, 0]);
        }
    }
}

// The answer to a case whose octets are these.
fn say_answer(s: &[u8], text: &mut Text, case: Case) {
    match case.operation {
        Operation::Read => say_reading(text, blocks::walk::read(s)),
        Operation::Step => say_step(text, Cursor { at: case.first }.step(s)),
        Operation::Entry => {
            say_entry(
                text,
                blocks::cursor::entry(s, case.first, case.cells[0] as usize),
            );
        }
        Operation::Post => say_posting(s, text, case.first),
        Operation::Load => say_loading(s, text),
        Operation::Feed => say_feed(s, text, case.first),
        Operation::Rewrite
        | Operation::Write
        | Operation::Store
        | Operation::ToNew
        | Operation::ToOld => say_output(s, text, case),
    }
}

// The answer to a case; one that lacks a number is none.
fn say(store: &[u8], text: &mut Text, case: Case) {
    match store.get(..case.len) {
        Some(s) if case.is_numbered() => say_answer(s, text, case),
        _ => unknown(text),
    }
}

// The end of a line, which is as if by a blank: what is then not between two words is no case. An empty line is passed over, and a comment was
// written as it came.
pub(crate) fn end(store: &mut [u8], text: &mut Text, line: &mut Line) {
    match line {
        Line::Start => return,
        Line::Comment => {}
        _ => {
            next(store, line, b' ');
            match line {
                Line::Between(case) => say(store, text, *case),
                _ => unknown(text),
            }
        }
    }
    text.emit(b'\n');
}
