// What an advance answers.
ghost use Rattle.std.specs.Prelude.{◌≡◌};
ghost use Rattle.port.specs.Meaning.{advance_refusal};

use refusal::{Reason, Refusal};

// A start: its instant, and the flow and the number of the packet.
#[derive(Clone, Copy, PartialEq, Eq, Debug)]
pub struct Start {
    pub at: u64,
    pub flow: u8,
    pub number: u64,
}

// An advance was given an instant below the clock, or past the last one.
#[derive(Clone, Copy, PartialEq, Eq, Debug)]
pub struct AdvanceFault;

// Refusal 18, with no place and no number.
impl From<AdvanceFault> for Refusal {
    ghost from_gives = { λ fault r. r ≡ advance_refusal fault };

    fn from(_fault: AdvanceFault) -> Refusal {
        Refusal::from(Reason::Instant)
    }
}
