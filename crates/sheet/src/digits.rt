// Numbers in base ten.
ghost use Rattle.std.specs.Prelude.{◌≡◌, ◌≤◌, length, if◌then◌else◌, Some, None};
ghost use Rattle.std.specs.Str.{all_ascii_digits};
ghost use Rattle.sheet.specs.Numbers.{read_number, digits_value, on_line};

use crate::faults::{Cause, DigitFault};

// The number that ten digits or fewer write; none where a byte is no digit. By hand, since `parse` takes a sign, too.
fn decimal(bytes: &[u8]) -> Option<u64>
    requires { length bytes.now ≤ 10 }
    ensures { result ≡ (if all_ascii_digits bytes.now then Some (digits_value 0 bytes.now) else None) }
{
    let mut n: u64 = 0;
    for b in bytes {
        n = n * 10 + (*b as char).to_digit(10)? as u64;
    }
    Some(n)
}

// The number that the bytes write, or the first cause why they write none.
fn read(bytes: &[u8]) -> Result<u64, Cause>
    ensures { result ≡ read_number bytes.now }
{
    if bytes.is_empty() {
        return Err(Cause::Empty);
    }
    if bytes.len() > 10 {
        return Err(Cause::TooLong);
    }
    if bytes.len() > 1 && bytes[0] == b'0' {
        return Err(Cause::LeadingZero);
    }
    decimal(bytes).ok_or(Cause::NoDigit)
}

// The same for the bytes on a line, whose place goes with the cause.
pub(crate) fn number(line: u32, bytes: &[u8]) -> Result<u64, DigitFault>
    ensures { result ≡ on_line line (read_number bytes.now) }
{
    read(bytes).map_err(|cause| DigitFault { line, cause })
}
