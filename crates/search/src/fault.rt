// Why a search draws no list.
ghost use Rattle.std.specs.Prelude.{◌≡◌};
ghost use Rattle.search.specs.Faults.{search_refusal};

use refusal::{Reason, Refusal};

// Why a search draws no list. A late packet, and one whose window makes the list too long,
// are named by their flow and their number in the cycle.
#[derive(Clone, Copy, PartialEq, Eq, Debug)]
pub enum SearchFault {
    EmptySheet,
    LittleMemory,
    Late(u8, u64),
    TooLong(u8, u64),
}

// The refusal that a fault stands for.
impl From<SearchFault> for Refusal {
    ghost from_gives = { λ fault r. r ≡ search_refusal fault };

    fn from(fault: SearchFault) -> Refusal {
        match fault {
            SearchFault::EmptySheet => Refusal::from(Reason::EmptySheet),
            SearchFault::LittleMemory => Refusal::from(Reason::LittleMemory),
            SearchFault::Late(flow, number) => Reason::LatePacket.of_packet(flow, number),
            SearchFault::TooLong(flow, number) => Reason::LongList.of_packet(flow, number),
        }
    }
}
