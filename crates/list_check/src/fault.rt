// Why a list is not accepted.
ghost use Rattle.std.specs.Prelude.{◌≡◌};

use refusal::{Reason, Refusal};

// Why a list is not accepted. An entry is named by its place, from 1, and a packet by its flow and its number in the cycle.
#[derive(Clone, Copy, PartialEq, Eq, Debug)]
pub enum CheckFault {
    EmptySheet,
    Size,
    Gates(u32),
    Name(u32),
    Total,
    Late(u8, u64),
}

// The refusal that a fault is.
impl From<CheckFault> for Refusal {
    ghost use Rattle.list_check.specs.Faults.{refusal_of};

    ghost from_gives = { λ fault r. r ≡ refusal_of fault };

    fn from(fault: CheckFault) -> Refusal {
        match fault {
            CheckFault::EmptySheet => Refusal::from(Reason::EmptySheet),
            CheckFault::Size => Refusal::from(Reason::ListSize),
            CheckFault::Gates(place) => Reason::Gates.at(place),
            CheckFault::Name(place) => Reason::Name.at(place),
            CheckFault::Total => Refusal::from(Reason::Total),
            CheckFault::Late(flow, number) => Reason::NotInTime.of_packet(flow, number),
        }
    }
}
