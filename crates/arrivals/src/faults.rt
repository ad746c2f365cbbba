// Why a source is not made, as a refusal.
ghost use Rattle.std.specs.Prelude.{◌≡◌};
ghost use Rattle.arrivals.specs.Faults.{capture_refusal, calendar_refusal};

use refusal::{Reason, Refusal};

// The record at this place of a capture, counted from 1, does not rise in delivery order or is one too many.
#[derive(Clone, Copy, PartialEq, Eq, Debug)]
pub struct CaptureFault {
    pub place: u32,
}

// Refusal 17 at the record's place.
impl From<CaptureFault> for Refusal {
    ghost from_gives = { λ fault r. r ≡ capture_refusal fault };

    fn from(fault: CaptureFault) -> Refusal {
        Reason::CaptureRecord.at(fault.place)
    }
}

// A calendar is asked for of an empty sheet, or for a number of cycles that is out of range.
#[derive(Clone, Copy, PartialEq, Eq, Debug)]
pub enum CalendarFault {
    EmptySheet,
    CyclesOutOfRange,
}

// Refusal 7 or 16, with no place and no number.
impl From<CalendarFault> for Refusal {
    ghost from_gives = { λ fault r. r ≡ calendar_refusal fault };

    fn from(fault: CalendarFault) -> Refusal {
        Refusal::from(match fault {
            CalendarFault::EmptySheet => Reason::EmptySheet,
            CalendarFault::CyclesOutOfRange => Reason::Cycles,
        })
    }
}
