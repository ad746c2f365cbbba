// Where a packet fits behind its gate.
ghost use Rattle.std.specs.Prelude.{◌≡◌, ◌+◌, ◌≤◌};
ghost use Rattle.sending.specs.Rules.{total};

use gates::entry::Entry;
use gates::opening::opens;

// A place of a list: what is left of the list there, and the instant at which it begins.
#[derive(Clone, Copy)]
pub(crate) struct Cursor<'a> {
    rest: &'a [Entry],
    pub(crate) opened: u64,
    ghost short: { opened + total rest.now ≤ 1000000000 },
}

impl<'a> Cursor<'a> {
    ghost use Rattle.std.specs.Prelude.{◌<◌, List, [], ◌∷◌, IfSome, MatchOption};
    ghost use Rattle.gates.specs.declared.entry.Entry.{Entry};
    ghost use Rattle.list_check.specs.Fit.{Placed, Moved, Sound};
    ghost use Rattle.list_check.specs.Serving.{FirstFit, NoFit};

    // The beginning of a list.
    pub(crate) fn start(list: &'a [Entry]) -> Cursor<'a>
        requires { Sound list.now }
        ensures placed { Placed list.now result }
        ensures opened { result.opened ≡ 0 }
    {
        Cursor {
            rest: list,
            opened: 0,
        }
    }

    // The place behind the first entry, if there is one.
    fn next(self) -> Option<Cursor<'a>>
        ensures { MatchOption result (self.entry.rest.now ≡ []) (λ next. (e : Entry) × (self.entry.rest.now ≡ e ∷ next.rest.now) × (next.opened ≡ self.entry.opened + e.interval)) }
    {
        let (entry, rest) = self.rest.split_first()?;
        let opened = self.opened + entry.interval as u64;
        Some(Cursor { rest, opened })
    }

    // Moves on over the entries that end by an instant.
    pub(crate) fn moved_to(self, from: u64) -> Cursor<'a>
        requires { self.opened ≤ from }
        ensures { Moved self.entry from result }
    {
        let mut cursor = self;
        while let Some(next) = cursor.next() {
            if next.opened > from {
                break;
            }
            cursor = next;
        }
        cursor
    }

    // The first instant from an instant on at which the gate stays open for the time of a packet.
    pub(crate) fn first_fit(self, queue: u8, from: u64, wire: u32) -> Option<u64>
        requires onward { self.opened ≤ from }
        requires early { from ≤ 4000000000 }
        requires some { 0 < wire }
        ensures later { IfSome result (λ t. from ≤ t) }
        ensures fits { (es : List Entry) → Sound es → Placed es self.entry → MatchOption result (NoFit es queue from wire) (FirstFit es queue from wire) }
    {
        // a search with running sums, which `find` would have to keep in its closure
        let mut start = from;
        let mut end = self.opened;
        for entry in self.rest {
            end += entry.interval as u64;
            if !opens(entry.gates, queue) {
                start = start.max(end);
            } else if start + wire as u64 <= end {
                return Some(start);
            }
        }
        None
    }
}
