// Which packets a list names. Flow and number stay two parameters, here and elsewhere: entries, packets and faults have them as
// fields of their own.
ghost use Rattle.std.specs.Prelude.{◌≡◌};
ghost use Rattle.gates.specs.Entries.{names};

use crate::entry::Entry;

// Does one of these entries name the packet?
pub fn is_named(entries: &[Entry], flow: u8, number: u64) -> bool
    ensures { result ≡ names entries.now flow number }
{
    entries
        .iter()
        .any(|e| e.flow == flow && e.number as u64 == number)
}
