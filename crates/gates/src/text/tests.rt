// What the writer does on examples.
use crate::entry::Entry;
use crate::text::{WriteFault, write_list};

const CLOSED: Entry = Entry {
    interval: 9328,
    ..Entry::ZERO
};

const SAMPLE: [Entry; 4] = [
    Entry {
        gates: 128,
        interval: 672,
        ..Entry::ZERO
    },
    CLOSED,
    Entry {
        gates: 1,
        interval: 672,
        flow: 1,
        number: 2,
    },
    CLOSED,
];

#[test]
fn sample_text(rt: HostRuntime) {
    let mut memory = [7u8; 47];
    assert_eq!(rt; write_list(&SAMPLE, &mut memory), Ok(44));
    assert_eq!(rt;
        &memory,
        b"128 672 0 0\n0 9328 0 0\n1 672 1 2\n0 9328 0 0\n\x07\x07\x07"
    );
}

#[test]
fn exact_memory(rt: HostRuntime) {
    let mut memory = [7u8; 44];
    assert_eq!(rt; write_list(&SAMPLE, &mut memory), Ok(44));
}

#[test]
fn one_byte_short(rt: HostRuntime) {
    let mut memory = [7u8; 43];
    assert_eq!(rt; write_list(&SAMPLE, &mut memory), Err(WriteFault::Memory));
    assert_eq!(rt; memory, [7u8; 43]);
}

#[test]
fn empty_list(rt: HostRuntime) {
    let mut memory = [7u8; 4];
    assert_eq!(rt; write_list(&[], &mut memory), Err(WriteFault::Entries));
    assert_eq!(rt; memory, [7u8; 4]);
}

#[test]
fn too_many_entries(rt: HostRuntime) {
    let mut memory = [7u8; 4];
    assert_eq!(rt;
        write_list(&[CLOSED; 1025], &mut memory),
        Err(WriteFault::Entries)
    );
    assert_eq!(rt;
        write_list(&[CLOSED; 1024], &mut memory),
        Err(WriteFault::Memory)
    );
    assert_eq!(rt; memory, [7u8; 4]);
}

#[test]
fn largest_fields(rt: HostRuntime) {
    let entry = Entry {
        gates: u8::MAX,
        interval: u32::MAX,
        flow: u8::MAX,
        number: u32::MAX,
    };
    let mut memory = [7u8; 31];
    assert_eq!(rt; write_list(&[entry], &mut memory), Ok(30));
    assert_eq!(rt; &memory, b"255 4294967295 255 4294967295\n\x07");
}
