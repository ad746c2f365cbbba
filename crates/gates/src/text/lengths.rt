// How many bytes a list's text has.
ghost use Rattle.std.specs.Prelude.{◌≡◌, ◌≤◌, length};
ghost use Rattle.gates.specs.Text.{entry_text, list_text};

use crate::entry::Entry;
use crate::text::digits::digit_count;

// The number of bytes of an entry's line.
fn entry_length(entry: Entry) -> usize
    ensures value { result ≡ length (entry_text entry) }
    ensures bound { result ≤ 30 }
{
    digit_count(entry.gates as u32)
        + digit_count(entry.interval)
        + digit_count(entry.flow as u32)
        + digit_count(entry.number)
        + 4
}

// The number of bytes of a list's text. It is asked of a list whose size was tested; a type for such a list would be made
// for this call alone.
pub(super) fn text_length(list: &[Entry]) -> usize
    requires { length list.now ≤ 1024 }
    ensures { result ≡ length (list_text list.now) }
{
    list.iter().map(|entry| entry_length(*entry)).sum()
}
