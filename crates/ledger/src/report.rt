// A statistics report where it stands in a block.
ghost use Rattle.std.specs.Prelude.{◌≡◌, ◌<◌};
ghost use Rattle.octets.specs.Numbers.{Octets};
ghost use Rattle.blocks.specs.Statistics.{report_entry};
ghost use Rattle.ledger.specs.Steps.{Reported};

use blocks::statistics::{Entry, Statistics, counter};

// The octets, in which its entries lie, and its numbers. That they are octets is what the type of a slice says; proofs have it from here.
#[derive(Clone, Copy)]
pub struct Report<'a> {
    pub octets: &'a [u8],
    pub numbers: Statistics,
    ghost reported: { Reported octets.now numbers },
    ghost small: { Octets octets.now },
}

impl<'a> Report<'a> {
    // Entry i.
    pub(crate) fn entry(&self, i: usize) -> Entry
        requires { i < self.now.numbers.count }
        ensures { result ≡ report_entry self.now.octets.now self.now.numbers.at i }
    {
        counter(self.octets, self.numbers.at, i)
    }
}
