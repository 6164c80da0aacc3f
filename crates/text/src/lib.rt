#![tactic(auto)]

// Text that a program writes, gathered so that one call writes much; a full buffer goes to standard output.
ghost use Rattle.std.specs.Prelude.{◌≡◌, replicate};
ghost use mathlib.Core.List.{◌++◌, flat_map};
ghost use Rattle.text.specs.Gathered.{gathered, made_room, put_one, put_all};
ghost use Rattle.text.specs.Digits.{decimal, blank_number, hex_pair};

use crate::digits::hex_digit;
use std::marker::Model;

pub mod digits;
pub mod refusals;

// Of a lent buffer of any length, and how many of its octets are held: each function gives how many are held then. A `Text`, below, has a buffer of its own.
// Writes what is gathered; gathering then begins anew.
pub fn flush(text: &[u8], held: usize) -> usize
    ensures { result ≡ 0 }
{
    if held <= text.len() {
        io::write_all(1, &text[..held]);
    }
    0
}

// Where the next octet goes: behind those held; a full buffer is written first.
fn make_room(text: &[u8], held: usize) -> usize
    ensures { gathered text.now result ≡ made_room (gathered text.now held) }
{
    if text.len() <= held {
        flush(text, held)
    } else {
        held
    }
}

// One octet more.
#[tactic(auto, unfolding(crate::specs::Gathered::put_one))]
pub fn emit(text: &mut [u8], held: usize, octet: u8) -> usize
    ensures { gathered text.new result ≡ put_one (gathered text.old held) octet }
{
    let at = make_room(text, held);
    if at < text.len() {
        text[at] = octet;
        at + 1
    } else {
        at
    }
}

// Several octets more.
#[tactic(auto, using(crate::proofs::GatheredLaws::puts))]
pub fn emit_all(text: &mut [u8], held: usize, octets: &[u8]) -> usize
    ensures { gathered text.new result ≡ put_all (gathered text.old held) octets.now }
{
    let mut at = held;
    for octet in octets {
        at = emit(text, at, *octet);
    }
    at
}

// A number in decimal.
#[tactic(auto, using(crate::proofs::DecimalLaws::decimal_digits))]
pub fn number(text: &mut [u8], held: usize, n: u64) -> usize
    ensures { gathered text.new result ≡ put_all (gathered text.old held) (decimal n) }
{
    let mut digits = [0u8; 20];
    let k = io::decimal(n, &mut digits);
    emit_all(text, held, &digits[..k])
}

// A word and a number.
#[tactic(auto, using(crate::proofs::GatheredLaws::puts))]
pub fn word_number(text: &mut [u8], held: usize, word: &[u8], n: u64) -> usize
    ensures { gathered text.new result ≡ put_all (gathered text.old held) (word.now ++ decimal n) }
{
    let at = emit_all(text, held, word);
    number(text, at, n)
}

// More numbers, with a blank before each.
#[tactic(auto, using(crate::proofs::GatheredLaws::puts))]
pub fn more(text: &mut [u8], held: usize, values: &[u64]) -> usize
    ensures { gathered text.new result ≡ put_all (gathered text.old held) (flat_map blank_number values.now) }
{
    let mut at = held;
    for value in values {
        at = emit(text, at, b' ');
        at = number(text, at, *value);
    }
    at
}

// Octets, two digits each.
#[tactic(auto, using(crate::proofs::GatheredLaws::puts))]
pub fn hex(text: &mut [u8], held: usize, octets: &[u8]) -> usize
    ensures { gathered text.new result ≡ put_all (gathered text.old held) (flat_map hex_pair octets.now) }
{
    let mut at = held;
    for octet in octets {
        at = emit(text, at, hex_digit(*octet / 16));
        at = emit(text, at, hex_digit(*octet));
    }
    at
}

// A buffer, and how many of its octets are held. Held is any number: a buffer that holds more than it has room for is full.
#[derive(Drop)]
pub struct Text<const N: usize> {
    pub octets: [u8; N],
    pub held: usize,
}

impl<const N: usize> Model for Text<N> {
    ghost use Rattle.text.specs.Gathered.{Gathered, gathered};

    ghost Value = { Gathered };

    ghost view = { λ t. gathered t.octets t.held };
}

impl<const N: usize> Text<N> {
    // Nothing is held.
    pub fn new() -> Text<N>
        ensures { result ≡ gathered (replicate N 0) 0 }
    {
        Text {
            octets: [0; N],
            held: 0,
        }
    }

    // Each of these is the function of its name, of the buffer and what it holds.
    pub fn flush(&mut self)
        ensures { self.new ≡ gathered self.old.octets 0 }
    {
        self.held = flush(&self.octets, self.held);
    }

    pub fn emit(&mut self, octet: u8)
        ensures { self.new ≡ put_one self.old octet }
    {
        self.held = emit(&mut self.octets, self.held, octet);
    }

    pub fn emit_all(&mut self, octets: &[u8])
        ensures { self.new ≡ put_all self.old octets.now }
    {
        self.held = emit_all(&mut self.octets, self.held, octets);
    }

    pub fn number(&mut self, n: u64)
        ensures { self.new ≡ put_all self.old (decimal n) }
    {
        self.held = number(&mut self.octets, self.held, n);
    }

    pub fn word_number(&mut self, word: &[u8], n: u64)
        ensures { self.new ≡ put_all self.old (word.now ++ decimal n) }
    {
        self.held = word_number(&mut self.octets, self.held, word, n);
    }

    pub fn more(&mut self, values: &[u64])
        ensures { self.new ≡ put_all self.old (flat_map blank_number values.now) }
    {
        self.held = more(&mut self.octets, self.held, values);
    }

    pub fn hex(&mut self, octets: &[u8])
        ensures { self.new ≡ put_all self.old (flat_map hex_pair octets.now) }
    {
        self.held = hex(&mut self.octets, self.held, octets);
    }
}
