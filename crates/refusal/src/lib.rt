// A refusal as it is told: its number, the place and the number that go with it.
#![tactic(auto)]

ghost use Rattle.std.specs.Prelude.{◌≡◌, IfOk, Some, string_bytes};
ghost use Rattle.refusal.specs.Reasons.{code_of};
ghost use Rattle.refusal.specs.Told.{plain, at_place, refusal_text};

use std::alloc::{AllocError, Global};
use std::fmt;

// Why something is refused: the 21 reasons in the order of their codes.
#[derive(Clone, Copy, PartialEq, Eq, Debug)]
pub enum Reason {
    LongText = 1,
    LineForm,
    LineNumber,
    LineRange,
    WireTime,
    LongCycle,
    EmptySheet,
    LittleMemory,
    LatePacket,
    LongList,
    ListSize,
    Gates,
    Name,
    Total,
    NotInTime,
    Cycles,
    CaptureRecord,
    Instant,
    FullTable,
    WrittenSize,
    ShortMemory,
}

impl Reason {
    // The code that is told, from 1 to 21.
    pub fn code(self) -> u8
        ensures { result ≡ code_of self }
    {
        self as u8
    }

    // The refusal for this reason at a place.
    pub fn at(self, place: u32) -> Refusal
        ensures { result ≡ at_place (code_of self) place }
    {
        Refusal::at(self.code(), place)
    }

    // The refusal for this reason of a packet: its flow is the place.
    pub fn of_packet(self, flow: u8, number: u64) -> Refusal
        ensures { result ≡ record { code = code_of self; place = flow; number = number } }
    {
        Refusal {
            code: self.code(),
            place: flow as u32,
            number,
        }
    }
}

// The refusal for a reason that names no place and no number.
impl From<Reason> for Refusal {
    ghost from_gives = { λ reason r. r ≡ plain (code_of reason) };

    fn from(reason: Reason) -> Refusal {
        Refusal::plain(reason.code())
    }
}

// Refusal `code`, from 1 to 21; place and number are 0 where it names none. All three stay numbers, since they are told so,
// and anyone may make a refusal of any number; `Reason` names the codes.
#[derive(Clone, Copy, PartialEq, Eq, Debug)]
pub struct Refusal {
    pub code: u8,
    pub place: u32,
    pub number: u64,
}

impl Refusal {
    // A refusal that names no place and no number. This and `at` take any code; `Reason` makes those of the project by them.
    pub fn plain(code: u8) -> Refusal
        ensures { result ≡ plain code }
    {
        Refusal::at(code, 0)
    }

    // A refusal at a place.
    pub fn at(code: u8, place: u32) -> Refusal
        ensures { result ≡ at_place code place }
    {
        let number = 0;
        Refusal {
            code,
            place,
            number,
        }
    }
}

impl fmt::Display for Refusal {
    ghost output = { λ x. Some (refusal_text x) };

    fn fmt<W: fmt::Write>(&self, f: &mut fmt::Formatter<W>) -> fmt::Result {
        let code = self.code;
        let place = self.place;
        let number = self.number;
        write!(f, "refused={code}\nplace={place}\nnumber={number}\n")
    }
}

// The three lines that tell a refusal.
pub fn refusal_text(heap: Global, refusal: Refusal) -> Result<String, AllocError>
    ensures { IfOk result (λ s. string_bytes s ≡ refusal_text refusal) }
{
    refusal.to_string(heap)
}
