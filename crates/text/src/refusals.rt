// What a refusal says.
ghost use Rattle.std.specs.Prelude.{◌≡◌};
ghost use Rattle.octets.specs.Refusals.{number_of};
ghost use Rattle.text.specs.Gathered.{gathered, put_all};
ghost use Rattle.text.specs.Sentences.{sentence};

use crate::{Text, emit_all};
use octets::refusal::Refusal;

// The sentence of a refusal, as README.md and include/wear.h have it.
fn sentence(refusal: Refusal) -> &'static [u8]
    ensures { result.now ≡ sentence (number_of refusal) }
{
    match refusal {
        Refusal::TooShort => b"fewer than 3 octets, or LEN beyond the octets",
        Refusal::UnknownCategory => b"a category other than 23, 65 and 242",
        Refusal::LenTooSmall => b"LEN below 4",
        Refusal::LongSpecification => b"a field specification longer than the category allows",
        Refusal::SpareMarked => b"a spare field is marked",
        Refusal::NoneMarked => b"no field is marked",
        Refusal::PassesEnd => {
            b"a specification or an item passes LEN; when writing, a place outside the source"
        }
        Refusal::NoCount => {
            b"a repetition of 0, or an opaque item shorter than its own length octet"
        }
        Refusal::PastLast => b"an item is extended beyond its last extension",
        Refusal::PresenceBroken => b"an item is missing, or there where it must not be",
        Refusal::OutOfRange => b"a value is out of its range",
        Refusal::OutputTooShort => b"the output is too short",
        Refusal::NotStatistics => {
            b"not a statistics report: not category 23 type 3, or without 010, 015 or 120"
        }
        Refusal::NoRoom => b"the ledger has no room for all new counters",
        Refusal::LifePasses => b"a life count would pass 2^64 - 1",
        Refusal::RulesBroken => b"the ledger or the page breaks its rules",
        Refusal::NoSuch => b"there is no record or entry of this number",
    }
}

// What a refusal number says: that of a refusal, 0, and any other.
fn words(n: u8) -> &'static [u8]
    ensures { result.now ≡ sentence n }
{
    if n == 0 {
        return b"accepted";
    }
    match Refusal::try_from(n) {
        Ok(refusal) => sentence(refusal),
        Err(_) => b"no refusal has this number",
    }
}

// What a refusal number says: of any number, as 0 and those that no refusal has have their sentences too.
pub fn say_refusal(text: &mut [u8], held: usize, n: u8) -> usize
    ensures { gathered text.new result ≡ put_all (gathered text.old held) (sentence n) }
{
    emit_all(text, held, words(n))
}

impl<const N: usize> Text<N> {
    // The same of the buffer and what it holds.
    pub fn say_refusal(&mut self, n: u8)
        ensures { self.new ≡ put_all self.old (sentence n) }
    {
        self.held = say_refusal(&mut self.octets, self.held, n);
    }
}
