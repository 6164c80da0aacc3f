// Why a block is refused, and where.
ghost use Rattle.std.specs.Prelude.{◌≡◌};

use octets::refusal::Refusal;

// A refusal, and the offset of the faulty record's first octet: 0 for the header, and for a record or entry that is not there.
#[derive(Clone, Copy, Debug, PartialEq, Eq)]
pub struct Fault {
    pub refusal: Refusal,
    pub at: usize,
}

impl From<Refusal> for Fault {
    ghost from_gives = { λ refusal fault. fault ≡ record { refusal = refusal; at = 0 } };

    fn from(refusal: Refusal) -> Fault {
        Fault { refusal, at: 0 }
    }
}

impl From<Fault> for Refusal {
    ghost from_gives = { λ fault refusal. refusal ≡ fault.refusal };

    fn from(fault: Fault) -> Refusal {
        fault.refusal
    }
}
