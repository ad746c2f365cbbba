// The text of a gate list, written into a caller's memory.
ghost use Rattle.std.specs.Prelude.{◌≡◌, ◌*◌, ◌≤◌, ◌⊎◌, length, Some, MatchResult};
ghost use Rattle.gates.specs.Text.{list_text, OneText};
ghost use Rattle.gates.specs.Writes.{WrittenAt, Listed, write_fault, refusal_of};

use crate::entry::{Entry, MOST_ENTRIES};
use crate::text::lengths::text_length;
use crate::text::writer::Writer;
use refusal::{Reason, Refusal};

mod digits;
mod lengths;
#[cfg(test)]
mod tests;
mod writer;

// The most bytes of a line: two numbers of up to 3 digits, two of up to 10, and a byte behind each.
const LINE_BYTES: usize = 30;

// Why a list is not written.
#[derive(Clone, Copy, PartialEq, Eq, Debug)]
pub enum WriteFault {
    // the list is empty or has more than 1,024 entries
    Entries,
    // the memory is shorter than the text
    Memory,
}

// The refusal that a fault stands for.
impl From<WriteFault> for Refusal {
    ghost from_gives = { λ fault r. r ≡ refusal_of fault };

    fn from(fault: WriteFault) -> Refusal {
        Refusal::from(match fault {
            WriteFault::Entries => Reason::WrittenSize,
            WriteFault::Memory => Reason::ShortMemory,
        })
    }
}

// Writes the lines of a list from the beginning of the memory on, and answers where they end.
// There is room for them, or for as many of the longest lines.
fn write_entries(list: &[Entry], memory: &mut [u8]) -> usize
    requires { (length (list_text list.now) ≤ length memory.old) ⊎ (30 * length list.now ≤ length memory.old) }
    ensures { WrittenAt (list_text list.now) 0 result memory.old memory.new }
{
    let mut writer = Writer { memory, at: 0 };
    for entry in list {
        writer.entry(*entry);
    }
    writer.at
}

// Writes the text of a list to the beginning of the memory, and answers its length.
// Bytes behind the text keep their content; a refused list leaves the memory as it is.
// No two lists have the same text, so the text says which list it was.
pub fn write_list(list: &[Entry], memory: &mut [u8]) -> Result<usize, WriteFault>
    ensures cases { MatchResult result
        (λ n. Listed list.now n memory.old memory.new)
        (λ f. (write_fault list.now (length memory.old) ≡ Some f) × (memory.new ≡ memory.old)) }
    ensures distinct { OneText }
{
    if list.is_empty() || list.len() > MOST_ENTRIES {
        return Err(WriteFault::Entries);
    }
    // An ample memory needs no count of digits.
    if memory.len() < LINE_BYTES * list.len() && memory.len() < text_length(list) {
        return Err(WriteFault::Memory);
    }
    Ok(write_entries(list, memory))
}
