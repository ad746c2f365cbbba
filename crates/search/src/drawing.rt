// The list drawn from windows. What is asked of them is the schedule's invariant: its methods call these with a part of it.
ghost use Rattle.std.specs.Prelude.{◌≡◌, ℕ, ◌+◌, ◌^◌, ◌<◌, ◌≤◌, [], ◌∷◌, length, take, drop, if◌then◌else◌, nat_lt};
ghost use Rattle.std.specs.List.{AllByRecursion};
ghost use Rattle.search.specs.Windows.{Fits, last_end, first_start, latest};
ghost use Rattle.search.specs.Drawn.{closed, entry, drawn, Wrote};

use crate::window::Window;
use gates::entry::Entry;

// Where the last of the windows ends, or 0.
pub(crate) fn end_of_last(windows: &[Window]) -> u64
    requires { AllByRecursion Fits windows.now }
    ensures { result ≡ last_end 0 windows.now }
{
    // Not `map_or`: tried, and the proof of its closure did not get at the window.
    match windows.last() {
        Some(w) => w.end(),
        None => 0,
    }
}

// Where the first of the windows starts, or the end of the cycle.
pub(crate) fn start_of_first(windows: &[Window], cycle: u64) -> u64
    ensures { result ≡ first_start windows.now cycle }
{
    windows.first().map_or(cycle, |w| w.start)
}

// One if the stretch from `a` to `b` is not empty.
pub(crate) fn stretch(a: u64, b: u64) -> usize
    ensures { result ≡ (if nat_lt a b then 1 else 0) }
{
    usize::from(a < b)
}

// The entry of a window: an optional packet is named.
fn entry_of(w: &Window) -> Entry
    requires { Fits w.now }
    ensures { result ≡ entry w.now }
{
    let p = w.packet;
    let (flow, number) = if p.queue == 0 {
        (p.flow, p.number as u32)
    } else {
        (0, 0)
    };
    Entry {
        gates: 1 << p.queue,
        interval: p.wire,
        flow,
        number,
    }
}

// Writes an entry at a place, and answers the place after it.
// The list and the place stay apart: a struct that held the lent list would have to say at each method that it is the same
// one, for two short functions and a loop.
fn write(list: &mut [Entry], n: usize, e: Entry) -> usize
    requires { n < length list.old }
    ensures { Wrote (e ∷ []) n result list.old list.new }
{
    list[n] = e;
    n + 1
}

// Writes a closed entry for the stretch from `a` to `b` unless that is empty, and answers the place after.
fn close(list: &mut [Entry], n: usize, a: u64, b: u64) -> usize
    requires short { b ≤ latest }
    requires room { n + length (closed a b []) ≤ length list.old }
    ensures { Wrote (closed a b []) n result list.old list.new }
{
    if a < b {
        write(
            list,
            n,
            Entry {
                interval: (b - a) as u32,
                ..Entry::ZERO
            },
        )
    } else {
        n
    }
}

// Draws the list: one entry a window, one closed entry for each non-empty stretch before, between and after. Answers its length.
pub(crate) fn draw(windows: &[Window], cycle: u64, list: &mut [Entry]) -> usize
    requires fit { AllByRecursion Fits windows.now × (cycle ≤ latest) }
    requires room { length (drawn 0 windows.now cycle) ≤ length list.old }
    ensures { Wrote (drawn 0 windows.now cycle) 0 result list.old list.new }
{
    let mut n = 0;
    let mut at = 0;
    for w in windows {
        n = close(list, n, at, w.start);
        n = write(list, n, entry_of(w));
        at = w.end();
    }
    close(list, n, at, cycle)
}
