// What writes lines into a caller's memory.
ghost use Rattle.std.specs.Prelude.{◌+◌, ◌<◌, ◌≤◌, ◌⊎◌, length, decimal};
ghost use Rattle.gates.specs.Text.{field_text, entry_text};
ghost use Rattle.gates.specs.Writes.{Wrote};

use crate::entry::Entry;
use crate::text::digits::{digit_count, write_digits};

// Writes one text after another into `memory`, which a caller lends; the next begins at `at`. A formatter would do for `write!`
// if it could not fail: this text is known to fit.
#[derive(Drop)]
pub(super) struct Writer<'a> {
    pub(super) memory: &'a mut [u8],
    pub(super) at: usize,
}

impl Writer<'_> {
    // Writes `n` and then the byte `mark`.
    #[inline]
    fn field(&mut self, n: u32, mark: u8)
        requires { self.old.at + length (decimal n) < length self.old.memory.now }
        ensures { Wrote (field_text n mark) self.old self.new }
    {
        let end = self.at + digit_count(n);
        write_digits(n, &mut self.memory[self.at..end]);
        self.memory[end] = mark;
        self.at = end + 1;
    }

    // Writes an entry's line; there is room for it, or for any line.
    #[inline]
    pub(super) fn entry(&mut self, entry: Entry)
        requires { (self.old.at + length (entry_text entry) ≤ length self.old.memory.now) ⊎ (self.old.at + 30 ≤ length self.old.memory.now) }
        ensures wrote { Wrote (entry_text entry) self.old self.new }
        ensures short { self.new.at ≤ self.old.at + 30 }
    {
        self.field(entry.gates as u32, b' ');
        self.field(entry.interval, b' ');
        self.field(entry.flow as u32, b' ');
        self.field(entry.number, b'\n');
    }
}
