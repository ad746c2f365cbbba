// Which gate is open at an offset of a list, and how long it stays open. List and offset stay two parameters, here and in the port:
// a value of both would be made for each call.
ghost use Rattle.std.specs.Prelude.{◌≡◌, ◌-◌, ◌^◌, min};
ghost use Rattle.gates.specs.Open.{opens, entry_at, gates_at, gate_of, open_at, open_for};
ghost use Rattle.gates.specs.OpenLaws.{OneGateOpen, StaysFor, OneStretch};

use crate::entry::Entry;

#[cfg(test)]
mod tests;

// The number of queues, and so of gates.
pub const QUEUES: usize = 8;

// Whether `gates` opens the gate of `queue`.
pub fn opens(gates: u8, queue: u8) -> bool
    ensures { result ≡ opens queue gates }
{
    (queue as usize) < QUEUES && (gates >> queue) % 2 == 1
}

// The entry at an offset of a list, and how much of its interval is left there: none past the list's end.
pub fn entry_at(list: &[Entry], offset: u64) -> Option<(Entry, u64)>
    ensures { result ≡ entry_at list.now offset }
{
    // a search with a running sum, which `find` would have to keep in its closure
    let mut ahead = offset;
    for entry in list {
        let interval = entry.interval as u64;
        if ahead < interval {
            return Some((*entry, interval - ahead));
        }
        ahead -= interval;
    }
    None
}

// The gates at an offset of a list: none past its end.
pub fn gates_at(list: &[Entry], offset: u64) -> u8
    ensures { result ≡ gates_at list.now offset }
{
    entry_at(list, offset).map_or(0, |(entry, _)| entry.gates)
}

// The queue whose gate alone `gates` opens, if there is one.
fn gate_of(gates: u8) -> Option<u8>
    ensures { result ≡ gate_of gates }
{
    gates
        .is_power_of_two()
        .then(|| gates.trailing_zeros() as u8)
}

// The queue whose gate alone is open at an offset of a list, if there is one.
pub fn open_at(list: &[Entry], offset: u64) -> Option<u8>
    ensures value { result ≡ open_at list.now offset }
    ensures alone { OneGateOpen }
{
    gate_of(gates_at(list, offset))
}

// How long the gate of `queue` stays open from an offset of the list on; the count stops at 2^64 - 1.
pub fn open_for(list: &[Entry], queue: u8, offset: u64) -> u64
    ensures value { result ≡ min (open_for list.now queue offset) (2 ^ 64 - 1) }
    ensures stays { StaysFor }
    ensures stretch { OneStretch }
{
    // a chain is no plainer: it passes over entries of length 0, open or not, and its sum may not fit
    let mut ahead = offset;
    let mut time: u64 = 0;
    for entry in list {
        let interval = entry.interval as u64;
        if ahead >= interval {
            ahead -= interval;
        } else if opens(entry.gates, queue) {
            time = time.saturating_add(interval - ahead);
            ahead = 0;
        } else {
            return time;
        }
    }
    time
}
