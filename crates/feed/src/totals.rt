// What is counted.
ghost use Rattle.std.specs.Prelude.{◌≡◌};
ghost use Rattle.octets.specs.Refusals.{refusal_in};
ghost use Rattle.feed.specs.Totals.{answered_one, refused_one, block_done};

use octets::refusal::Refusal;

// Blocks accepted and refused, records posted, and records answered 14 or 15. A count stays at 2^64 - 1.
#[derive(Clone, Copy)]
pub struct Totals {
    pub accepted: u64,
    pub refused: u64,
    pub posted: u64,
    pub unposted: u64,
}

// What has been counted before a run.
pub const ZEROS: Totals = Totals {
    accepted: 0,
    refused: 0,
    posted: 0,
    unposted: 0,
};

impl Totals {
    // The totals with one record's answer.
    #[tactic(auto, unfolding(rows::specs::Order::times))]
    pub(crate) fn counted(self, answer: Result<(), Refusal>) -> Totals
        ensures { result ≡ answered_one self (refusal_in answer) }
    {
        match answer {
            Ok(()) => Totals {
                posted: self.posted.saturating_add(1),
                ..self
            },
            Err(Refusal::NoRoom | Refusal::LifePasses) => Totals {
                unposted: self.unposted.saturating_add(1),
                ..self
            },
            Err(_) => self,
        }
    }

    // The totals with one more block refused. This and the next are two, as each changes another count.
    pub(crate) fn with_refused(self) -> Totals
        ensures { result ≡ refused_one self }
    {
        Totals {
            refused: self.refused.saturating_add(1),
            ..self
        }
    }

    // The totals with one more block accepted; its records are counted one by one.
    pub(crate) fn with_accepted(self) -> Totals
        ensures { result ≡ block_done self }
    {
        Totals {
            accepted: self.accepted.saturating_add(1),
            ..self
        }
    }
}
