// A sheet's fault as a refusal.
ghost use Rattle.std.specs.Prelude.{◌≡◌};
ghost use Rattle.sheet.specs.Refusals.{line_refusal, sheet_refusal};

use crate::faults::{LineFault, SheetFault};
use refusal::{Reason, Refusal};

// The refusal of a line.
impl From<LineFault> for Refusal {
    ghost from_gives = { λ fault r. r ≡ line_refusal fault };

    fn from(fault: LineFault) -> Refusal {
        match fault {
            LineFault::Form(line) => Reason::LineForm.at(line),
            LineFault::Number(digits) => Reason::LineNumber.at(digits.line),
            LineFault::Range(line) => Reason::LineRange.at(line),
            LineFault::WireTime(line) => Reason::WireTime.at(line),
        }
    }
}

// The refusal that a fault stands for. Want of memory is none, so it is no `From`, and a `TryFrom` would need an error of its own.
pub fn sheet_refusal(fault: SheetFault) -> Option<Refusal>
    ensures { result ≡ sheet_refusal fault }
{
    match fault {
        SheetFault::Memory => None,
        SheetFault::Size => Some(Reason::LongText.into()),
        SheetFault::Line(fault) => Some(fault.into()),
        SheetFault::Cycle => Some(Reason::LongCycle.into()),
    }
}
