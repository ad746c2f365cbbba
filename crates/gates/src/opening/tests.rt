// Open gates of an example: queue 7 for 700 instants in two entries, all shut for 300, queue 0 for 100.
use crate::entry::Entry;
use crate::opening::{entry_at, open_at, open_for};

const LIST: [Entry; 4] = [
    Entry {
        gates: 128,
        interval: 600,
        ..Entry::ZERO
    },
    Entry {
        gates: 128,
        interval: 100,
        ..Entry::ZERO
    },
    Entry {
        interval: 300,
        ..Entry::ZERO
    },
    Entry {
        gates: 1,
        interval: 100,
        flow: 1,
        number: 2,
    },
];

#[test]
fn entries_at_offsets(rt: HostRuntime) {
    assert_eq!(rt; entry_at(&LIST, 599), Some((LIST[0], 1)));
    assert_eq!(rt; entry_at(&LIST, 600), Some((LIST[1], 100)));
    assert_eq!(rt; entry_at(&LIST, 1100), None);
}

#[test]
fn open_queues(rt: HostRuntime) {
    assert_eq!(rt; open_at(&LIST, 699), Some(7));
    assert_eq!(rt; open_at(&LIST, 700), None);
    assert_eq!(rt; open_at(&LIST, 1000), Some(0));
    assert_eq!(rt; open_at(&LIST, 1100), None);
}

#[test]
fn open_stretches(rt: HostRuntime) {
    assert_eq!(rt; open_for(&LIST, 7, 10), 690);
    assert_eq!(rt; open_for(&LIST, 7, 700), 0);
    assert_eq!(rt; open_for(&LIST, 0, 1001), 99);
    assert_eq!(rt; open_for(&LIST, 0, 0), 0);
}
