#![tactic(auto)]

// Runs the cases of standard input through the layers, a line for each to standard output: `read OCTETS`, `step START OCTETS`,
// `entry START K OCTETS`, `rewrite ROOM OCTETS`, `write ROOM CELLS OCTETS`, `post K LEDGER OCTETS`, `load OCTETS`, `store ROOM LEDGER`,
// `to_new ROOM OCTETS`, `to_old ROOM OCTETS`, `feed PIECE OCTETS`.
mod answer;
mod case;
mod feeds;
mod ledgers;
mod operation;
mod store;
mod written;

use crate::case::Line;

// The text that is gathered.
type Text = text::Text<1024>;

// One octet of input.
fn take(store: &mut [u8], text: &mut Text, line: &mut Line, c: u8) {
    if c == b'\n' {
        answer::end(store, text, line);
        *line = Line::Start;
        return;
    }
    case::next(store, line, c);
    if matches!(line, Line::Comment) {
        text.emit(c);
    }
}

// Several octets of input, one after the other.
fn take_all(store: &mut [u8], text: &mut Text, line: &mut Line, octets: &[u8]) {
    for octet in octets {
        take(store, text, line, *octet);
    }
}

// Reads until nothing comes. A proved loop has to end, and nothing says that the input does: it has a number of turns that no run uses up.
fn run_all(store: &mut [u8], text: &mut Text) {
    let mut line = Line::Start;
    let mut input = io::buffer();
    for _ in 0..u64::MAX {
        let n = io::read_full(0, &mut input);
        if n == 0 {
            break;
        }
        take_all(store, text, &mut line, &input[..n]);
    }
    answer::end(store, text, &mut line);
    text.flush();
}

// A case has at most 65,540 octets: LEN at its most, and some behind it.
fn main() {
    let mut store = [0u8; 65540];
    let mut text = Text::new();
    run_all(&mut store, &mut text);
}
