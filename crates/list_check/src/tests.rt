// What the check says of examples.
use crate::acceptance::check as check_list;
use gates::entry::Entry;
use refusal::Refusal;
use sheet::sheet::Sheet;
use std::test::Fail;

// One flow, of which every second packet is optional.
const SHEET: &[u8] =
    b"rate=1000\nflow=1\nqueue=7\noctets=64\nperiod=10000\ndeadline=5000\nmiss=1\nof=2\nweight=0\nflows=1\n";

// An entry that names no packet.
const fn entry(gates: u8, interval: u32) -> Entry {
    Entry {
        gates,
        interval,
        flow: 0,
        number: 0,
    }
}

// An entry for a packet of flow 1.
const fn named(number: u32) -> Entry {
    Entry {
        gates: 1,
        interval: 672,
        flow: 1,
        number,
    }
}

// This refusal.
const fn refusal(code: u8, place: u32, number: u64) -> Option<Refusal> {
    Some(Refusal {
        code,
        place,
        number,
    })
}

// The refusal of a list, if it is refused.
fn told<'x>(sheet: &'x Sheet, list: &'x [Entry]) -> Option<Refusal> {
    check_list(sheet, list).err().map(Refusal::from)
}

#[test]
fn good_lists(rt: HostRuntime) -> Result<(), Fail> {
    let mut sheet = Sheet::new(rt.alloc());
    sheet.read(SHEET)?;
    assert_eq!(rt;
        told(
            &sheet,
            &[entry(128, 672), entry(0, 9328), named(2), entry(0, 9328)],
        ),
        None
    );
    assert_eq!(rt;
        told(
            &sheet,
            &[
                entry(128, 300),
                entry(128, 372),
                entry(0, 9328),
                named(2),
                entry(0, 9328),
            ],
        ),
        None
    );
    assert_eq!(rt;
        told(
            &sheet,
            &[
                entry(0, 4328),
                entry(128, 672),
                entry(0, 5000),
                named(2),
                entry(0, 9328),
            ],
        ),
        None
    );
    Ok(())
}

#[test]
fn broken_rules(rt: HostRuntime) -> Result<(), Fail> {
    let mut sheet = Sheet::new(rt.alloc());
    assert_eq!(rt; told(&sheet, &[entry(0, 1)]), refusal(7, 0, 0));
    sheet.read(SHEET)?;
    assert_eq!(rt; told(&sheet, &[]), refusal(11, 0, 0));
    assert_eq!(rt;
        told(
            &sheet,
            &[entry(129, 672), entry(0, 9328), named(2), entry(0, 9328)],
        ),
        refusal(12, 1, 0)
    );
    assert_eq!(rt;
        told(
            &sheet,
            &[entry(128, 672), entry(0, 9328), named(1), entry(0, 9328)],
        ),
        refusal(13, 3, 0)
    );
    assert_eq!(rt;
        told(
            &sheet,
            &[
                entry(128, 672),
                entry(0, 9328),
                named(2),
                named(2),
                entry(0, 8656),
            ],
        ),
        refusal(13, 4, 0)
    );
    assert_eq!(rt;
        told(
            &sheet,
            &[entry(128, 672), entry(0, 9328), named(2), entry(0, 9327)],
        ),
        refusal(14, 0, 0)
    );
    Ok(())
}

#[test]
fn late_packets(rt: HostRuntime) -> Result<(), Fail> {
    let mut sheet = Sheet::new(rt.alloc());
    sheet.read(SHEET)?;
    assert_eq!(rt;
        told(
            &sheet,
            &[entry(128, 671), entry(0, 9329), named(2), entry(0, 9328)],
        ),
        refusal(15, 1, 1)
    );
    assert_eq!(rt;
        told(
            &sheet,
            &[
                entry(0, 4329),
                entry(128, 672),
                entry(0, 4999),
                named(2),
                entry(0, 9328),
            ],
        ),
        refusal(15, 1, 1)
    );
    assert_eq!(rt;
        told(
            &sheet,
            &[entry(128, 672), entry(0, 9328), entry(0, 9328), named(2)],
        ),
        refusal(15, 1, 2)
    );
    Ok(())
}
