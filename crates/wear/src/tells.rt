// What is told on standard error: refused blocks that a run skips, and where it stopped.
ghost use Rattle.std.specs.Prelude.{List, ◌≡◌, ℕ, ◌-◌, ◌≤◌, length, take};
ghost use Rattle.io.specs.Counts.{IsPrefixLen};
ghost use Rattle.blocks.specs.Walks.{read_listed};
ghost use Rattle.feed.specs.Blocks.{next_listed};
ghost use Rattle.text.specs.Gathered.{put_all};
ghost use Rattle.wear.specs.Tells.{number_in, place_in, refused_words, fault_words, skipped_line, unread_first, unread_words, StopTold};
ghost use Rattle.wear.specs.Turns.{has_failed, Left};

use crate::input::Turn;
use crate::reads::{Reads, more};
use blocks::fault::Fault;
use blocks::walk::read;
use feed::block::{Next, next_block};
use text::Text;

// Room for the longest line.
const LINE: usize = 256;

// What refuses a block, where something does.
fn fault_of(s: &[u8]) -> Option<Fault>
    ensures { (number_in result ≡ (read_listed s.now).refusal) × (place_in result ≡ (read_listed s.now).offset) }
{
    read(s).err()
}

// A refusal: its number, and what it says; where nothing refuses, the number 0 and its words.
#[tactic(auto, using(text::proofs::GatheredLaws::puts), unfolding(text::specs::Quotes::quoted))]
fn refused_words(text: &mut Text<LINE>, fault: Option<Fault>)
    ensures { text.new ≡ put_all text.old (refused_words (number_in fault)) }
{
    let n = fault.map_or(0, |f| u8::from(f.refusal));
    text.word_number(b"refused ", n as u64);
    text.emit_all(b", ");
    text.say_refusal(n);
}

// Where the fault is: a record, by its offset in the feed, or the header.
#[tactic(auto, using(text::proofs::GatheredLaws::puts), unfolding(text::specs::Quotes::quoted))]
fn fault_words(text: &mut Text<LINE>, offset: u64, fault: Option<Fault>)
    ensures { text.new ≡ put_all text.old (fault_words offset (place_in fault)) }
{
    let at = fault.map_or(0, |f| f.at);
    if at == 0 {
        text.emit_all(b"; its header\n");
    } else {
        text.word_number(b"; its record at octet ", more(offset, at));
        text.emit(b'\n');
    }
}

// The line of a refused block, which has a header.
fn skipped_line(offset: u64, s: &[u8]) -> Text<LINE>
    requires { 3 ≤ length s.now }
    ensures { (take result.held result.octets ≡ skipped_line offset s.now) × IsPrefixLen result.held result.octets }
{
    let fault = fault_of(s);
    let mut text = Text::new();
    text.word_number(b"wear: skipped at octet ", offset);
    text.word_number(b": category ", s[0] as u64);
    text.word_number(b", LEN ", octets::read(s, 1, 2));
    text.emit_all(b": ");
    refused_words(&mut text, fault);
    fault_words(&mut text, offset, fault);
    text
}

// Where a run stopped, and why, by what waits there.
fn stopped_words(buffer: &[u8], last: Turn) -> Text<LINE>
    requires { (feed : List ℕ) × Left feed buffer.now last }
    ensures { StopTold last (take result.held result.octets) × IsPrefixLen result.held result.octets }
{
    let fault = fault_of(&buffer[last.from..last.to]);
    let mut text = Text::new();
    text.word_number(b"wear: stopped at octet ", last.used);
    text.emit_all(b": ");
    refused_words(&mut text, fault);
    text
}

// What stands before the number of octets that were not read: where a read failed before their end, it is not known.
#[tactic(auto, using(text::proofs::GatheredLaws::puts), unfolding(text::specs::Quotes::quoted))]
fn unread_first(text: &mut Text<LINE>, has_failed: bool)
    ensures { text.new ≡ put_all text.old (unread_first has_failed) }
{
    if has_failed {
        text.emit_all(b"; at least ");
    } else {
        text.emit_all(b"; ");
    }
}

// How many octets were not read: those that the reads have given in all, but for those that the run used.
fn unread_words(all: Reads, last: Turn) -> Text<LINE>
    ensures { (take result.held result.octets ≡ unread_words (all.octets - last.used) (has_failed all)) × IsPrefixLen result.held result.octets }
{
    let mut text = Text::new();
    unread_first(&mut text, all.has_failed());
    text.number(all.behind(last.used));
    text.emit_all(b" octets from there on were not read\n");
    text
}

// This and the next two are alike but for their lines, and a line each.
fn say_skipped(offset: u64, s: &[u8])
    requires { 3 ≤ length s.now }
{
    let text = skipped_line(offset, s);
    io::write_all(2, &text.octets[..text.held]);
}

pub(crate) fn say_stopped(buffer: &[u8], last: Turn)
    requires { (feed : List ℕ) × Left feed buffer.now last }
{
    let text = stopped_words(buffer, last);
    io::write_all(2, &text.octets[..text.held]);
}

pub(crate) fn say_unread(all: Reads, last: Turn) {
    let text = unread_words(all, last);
    io::write_all(2, &text.octets[..text.held]);
}

// The line of the block that comes next, where it is refused and skipped; how many octets the run goes on by.
fn tell_next(s: &[u8], is_over: bool, offset: u64) -> usize
    ensures { (result ≡ (next_listed s.now is_over).octets) × (result ≤ length s.now) }
{
    match next_block(s, is_over) {
        Next::Accepted(len) => len,
        Next::Skipped(len) => {
            say_skipped(offset, s);
            len
        }
        Next::Left(_) => 0,
    }
}

// A line for each refused block that a run over the octets at hand skips. A reading of its own: it is made only where it is asked for.
pub(crate) fn tell_skipped(s: &[u8], is_over: bool, used: u64) {
    let mut at: usize = 0;
    while at < s.len() {
        let passed = tell_next(&s[at..], is_over, more(used, at));
        if passed == 0 {
            return;
        }
        at += passed;
    }
}
