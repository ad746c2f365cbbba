// Why a sheet's text is refused.
ghost use Rattle.std.specs.Prelude.{◌≡◌};
ghost use Rattle.sheet.specs.declared.faults.LineFault.TheVariants.{Number};
ghost use Rattle.sheet.specs.declared.faults.SheetFault.TheVariants.{Line, Memory};

use std::alloc::{AllocError, AllocFailed};

// Why bytes write no number.
#[derive(Clone, Copy, PartialEq, Eq, Debug)]
pub enum Cause {
    Empty,
    TooLong,
    LeadingZero,
    NoDigit,
}

// The number of a line is none.
#[derive(Clone, Copy, PartialEq, Eq, Debug)]
pub struct DigitFault {
    pub line: u32,
    pub cause: Cause,
}

// The fault of a line: it lacks its key or its end; its number is none; that number is out of its range;
// the wire time passes the deadline on that line.
#[derive(Clone, Copy, PartialEq, Eq, Debug)]
pub enum LineFault {
    Form(u32),
    Number(DigitFault),
    Range(u32),
    WireTime(u32),
}

// The fault of a sheet: no memory for it; its text is too long; the fault of a line; its cycle is too long.
#[derive(Clone, Copy, PartialEq, Eq, Debug)]
pub enum SheetFault {
    Memory,
    Size,
    Line(LineFault),
    Cycle,
}

// By hand, since a derived `From` does not say which fault a `?` makes.
impl From<DigitFault> for LineFault {
    ghost from_gives = { λ d r. r ≡ Number d };

    fn from(d: DigitFault) -> LineFault {
        LineFault::Number(d)
    }
}

impl From<LineFault> for SheetFault {
    ghost from_gives = { λ l r. r ≡ Line l };

    fn from(l: LineFault) -> SheetFault {
        SheetFault::Line(l)
    }
}

impl From<AllocError> for SheetFault {
    ghost from_gives = { λ _ r. r ≡ Memory };

    fn from(_e: AllocError) -> SheetFault {
        SheetFault::Memory
    }
}

impl<T: Drop> From<AllocFailed<T>> for SheetFault {
    ghost from_gives = { λ _ r. r ≡ Memory };

    fn from(_e: AllocFailed<T>) -> SheetFault {
        SheetFault::Memory
    }
}
