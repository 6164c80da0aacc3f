// Where an item ends, by its kind. No octet at or past the block's end is looked at.
ghost use Rattle.std.specs.Prelude.{◌≡◌, ◌-◌, ◌≤◌, length};
ghost use Rattle.octets.specs.Numbers.{Octets};
ghost use Rattle.octets.specs.Refusals.{number_of, long_specification};
ghost use Rattle.layouts.specs.End.{as_end};
ghost use Rattle.layouts.specs.Ends.{Ends, room_end, counted_end, chain_end, kind_end};

use octets::refusal::Refusal;

// The kind of an item with its sizes in octets.
#[derive(Clone, Copy)]
pub enum Kind {
    Spare,
    Fixed(u8),
    // The first part, and how many extensions of one octet there may be.
    Extended(u8, u8),
    // One entry.
    Repeated(u8),
    Explicit,
}

// Octets that were lent, of which a block has those before LEN. That they are octets is what the type of a slice says; proofs have it from here.
// An offset stays beside it, asked in each clause to be at most LEN, since it moves on with every item and a struct of both would be made anew each time.
#[derive(Clone, Copy)]
pub struct Window<'a> {
    pub octets: &'a [u8],
    pub len: usize,
    ghost inside: { len ≤ length octets.now },
    ghost small: { Octets octets.now },
}

// So many octets more.
fn room_end(len: usize, at: usize, size: usize) -> Result<usize, Refusal>
    requires { at ≤ len }
    ensures { as_end result ≡ room_end len at size }
{
    if len - at < size {
        Err(Refusal::PassesEnd)
    } else {
        Ok(at + size)
    }
}

// The place of a part's last octet, from its first.
fn last_of(size: u8) -> usize
    ensures { result ≡ size - 1 }
{
    size.saturating_sub(1) as usize
}

impl<'a> Window<'a> {
    // An octet that counts so many more than the parts behind it. Only for the next layer: the offset is at most LEN.
    pub fn counted_end(&self, at: usize, extra: u8, size: u8) -> Result<usize, Refusal>
        requires { at ≤ self.now.len }
        ensures { Ends result (counted_end self.now.octets.now self.now.len extra size at) }
    {
        if self.len <= at {
            return Err(Refusal::PassesEnd);
        }
        let n = self.octets[at];
        if n <= extra {
            return Err(Refusal::NoCount);
        }
        room_end(self.len, at + 1, (n - extra) as usize * size as usize)
    }

    // A part, and while FX is set an octet more, up to so many; past refuses FX in the last.
    fn chain_end(&self, at: usize, past: Refusal, size: u8, more: u8) -> Result<usize, Refusal>
        requires { at ≤ self.now.len }
        ensures { as_end result ≡ chain_end self.now.octets.now self.now.len (number_of past) size more at }
    {
        let mut p = at;
        let mut n = size;
        for _ in 0..=more {
            if self.len - p < n as usize {
                return Err(Refusal::PassesEnd);
            }
            let flag = octets::octet(self.octets, p, last_of(n)) % 2;
            p += n as usize;
            if flag == 0 {
                return Ok(p);
            }
            n = 1;
        }
        Err(past)
    }

    // Where a field specification of at most so many octets ends. Only for the next layer: the offset is at most LEN.
    pub fn specification_end(&self, at: usize, most: u8) -> Result<usize, Refusal>
        requires { at ≤ self.now.len }
        ensures { Ends result (chain_end self.now.octets.now self.now.len long_specification 1 (most - 1) at) }
    {
        self.chain_end(at, Refusal::LongSpecification, 1, most.saturating_sub(1))
    }

    // Where an item of any kind ends. `kind_end` answers for the usual kinds itself, so that it is small. Only for the next layer: as kind_end.
    pub fn varying_end(&self, at: usize, kind: Kind) -> Result<usize, Refusal>
        requires { at ≤ self.now.len }
        ensures { Ends result (kind_end self.now.octets.now self.now.len kind at) }
    {
        match kind {
            Kind::Spare => Err(Refusal::SpareMarked),
            Kind::Fixed(size) => room_end(self.len, at, size as usize),
            Kind::Extended(size, more) => self.chain_end(at, Refusal::PastLast, size, more),
            Kind::Repeated(size) => self.counted_end(at, 0, size),
            Kind::Explicit => self.counted_end(at, 1, 1),
        }
    }

    // Where an item of a kind ends. Only for the next layer: the offset is at most LEN.
    pub fn kind_end(&self, at: usize, kind: Kind) -> Result<usize, Refusal>
        requires { at ≤ self.now.len }
        ensures { Ends result (kind_end self.now.octets.now self.now.len kind at) }
    {
        match kind {
            Kind::Fixed(size) => room_end(self.len, at, size as usize),
            Kind::Repeated(size) => self.counted_end(at, 0, size),
            _ => self.varying_end(at, kind),
        }
    }
}
