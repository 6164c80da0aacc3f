// A line of input, read octet by octet as it comes, so that no line is stored.
use crate::Text;
use crate::operation::{Letters, Operation};
use crate::store::{put, repeat};
use doors::cell::CELLS;
use text::digits::{hex_value, with_digit};

// A case: its operation, how many numbers it has so far, the first of them, those behind it, and how many octets are in store.
#[derive(Clone, Copy)]
pub struct Case {
    pub operation: Operation,
    pub given: usize,
    pub first: usize,
    pub cells: [u64; CELLS],
    pub len: usize,
}

// A word of octets: where those in store end, which is nowhere if they had no room; the count that its digits may turn out to be; how often it
// is said; and the octet that waits for its low half.
#[derive(Clone, Copy)]
pub struct Word {
    pub end: Option<usize>,
    pub count: Option<usize>,
    pub times: usize,
    pub half: Option<u8>,
}

// What a line is in, by its octets so far.
#[derive(Clone, Copy)]
pub enum Line {
    Start,
    Comment,
    Letters(Letters),
    Between(Case),
    Digits(Case, usize),
    Octets(Case, Word),
    // No case, whatever follows.
    Wrong,
}

impl Case {
    // Whether it has all its numbers.
    pub(crate) fn is_numbered(&self) -> bool {
        self.operation.numbers() <= self.given
    }
}

// One letter more of the operation.
fn letter(letters: Letters, c: u8) -> Line {
    match letters.with(c) {
        Some(more) => Line::Letters(more),
        None => Line::Wrong,
    }
}

// Behind the operation's letters.
fn named(letters: Letters) -> Line {
    match letters.operation() {
        Some(operation) => Line::Between(Case {
            operation,
            given: 0,
            first: 0,
            cells: [0; CELLS],
            len: 0,
        }),
        None => Line::Wrong,
    }
}

// One digit more of a number; none where it is no digit, or too many.
fn digit(n: &mut usize, c: u8) -> Option<()> {
    *n = with_digit(*n, c)?;
    Some(())
}

// Behind a number; a case that has the most numbers gets no more.
fn numbered(mut case: Case, n: usize) -> Line {
    match case.given {
        0 => case.first = n,
        1..=CELLS => case.cells[case.given - 1] = n as u64,
        _ => return Line::Wrong,
    }
    case.given += 1;
    Line::Between(case)
}

// One digit more of a word of octets: every second one ends an octet; none where it is no digit.
fn half_octet(store: &mut [u8], word: &mut Word, c: u8) -> Option<()> {
    let value = hex_value(c)?;
    if let Some(n) = word.count {
        word.count = with_digit(n, c);
    }
    match word.half {
        Some(high) => {
            word.half = None;
            if let Some(end) = word.end {
                word.end = put(store, end, high | value);
            }
        }
        None => word.half = Some(value * 16),
    }
    Some(())
}

// Behind the star of a word: its digits were a count, and no octets.
fn starred(case: Case, word: Word) -> Line {
    match word.count {
        Some(times) => Line::Octets(
            case,
            Word {
                end: Some(case.len),
                count: None,
                times,
                half: None,
            },
        ),
        None => Line::Wrong,
    }
}

// The octets of a word as often as they are said; where they end.
fn said(store: &mut [u8], from: usize, word: Word) -> Option<usize> {
    if word.times == 0 {
        return Some(from);
    }
    repeat(store, from, word.end?, word.times)
}

// Behind a word of octets, which has some, and no half of one.
fn worded(store: &mut [u8], mut case: Case, word: Word) -> Line {
    if word.half.is_some() || word.end == Some(case.len) {
        return Line::Wrong;
    }
    match said(store, case.len, word) {
        Some(len) => {
            case.len = len;
            Line::Between(case)
        }
        None => Line::Wrong,
    }
}

// The first octet of a number, or of a word of octets.
fn begun(store: &mut [u8], case: Case, c: u8) -> Line {
    if !case.is_numbered() {
        return match with_digit(0, c) {
            Some(n) => Line::Digits(case, n),
            None => Line::Wrong,
        };
    }
    let mut word = Word {
        end: Some(case.len),
        count: Some(0),
        times: 1,
        half: None,
    };
    match half_octet(store, &mut word, c) {
        Some(()) => Line::Octets(case, word),
        None => Line::Wrong,
    }
}

// A line behind an octet with which it comes into something else.
fn turned(store: &mut [u8], line: Line, c: u8) -> Line {
    match line {
        Line::Start if c == b'#' => Line::Comment,
        Line::Start => letter(Letters::NONE, c),
        Line::Letters(letters) if c == b' ' => named(letters),
        Line::Letters(letters) => letter(letters, c),
        Line::Between(case) => begun(store, case, c),
        Line::Digits(case, n) => numbered(case, n),
        Line::Octets(case, word) if c == b'*' => starred(case, word),
        Line::Octets(case, word) => worded(store, case, word),
        Line::Comment | Line::Wrong => line,
    }
}

// One octet more of a line. Most are digits, and what stays as it is stays where it is: a case, which is long, is not copied for each.
pub(crate) fn next(store: &mut [u8], line: &mut Line, c: u8) {
    let more = match line {
        Line::Comment | Line::Wrong => return,
        Line::Between(_) if c == b' ' => return,
        Line::Digits(_, n) if c != b' ' => digit(n, c),
        Line::Octets(_, word) if c != b' ' && c != b'*' => half_octet(store, word, c),
        _ => {
            *line = turned(store, *line, c);
            return;
        }
    };
    if more.is_none() {
        *line = Line::Wrong;
    }
}

// What is no case: a question mark and a blank.
pub(crate) fn unknown(text: &mut Text) {
    text.emit_all(b"? ");
}
