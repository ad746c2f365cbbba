// A table of two places from empty to full and on, and the order of equals.
use crate::queue::Queue;
use crate::waiting::Waiting;
use crate::windows::Window;
use std::test::Fail;
use table::full::Full;
use table::owned::Table;
use table::table::{put, show, take_first};

const EARLY: Window = Window { start: 0, end: 5 };

const LATE: Window = Window { start: 7, end: 9 };

const LATE_TOO: Window = Window { start: 7, end: 8 };

#[test]
fn holds_nothing_at_first(rt: HostRuntime) {
    let mut memory = [EARLY; 2];
    assert_eq!(rt; show(&memory, 0, 0), None);
    assert_eq!(rt; take_first(&mut memory, 0), None);
    assert_eq!(rt; memory, [EARLY; 2]);
}

#[test]
fn refuses_when_full(rt: HostRuntime) -> Result<(), Fail> {
    let mut memory = [EARLY; 2];
    let len = put(&mut memory, 0, LATE)?;
    let len = put(&mut memory, len, EARLY)?;
    assert_eq!(rt; put(&mut memory, len, LATE_TOO), Err(Full));
    assert_eq!(rt; memory, [EARLY, LATE]);
    Ok(())
}

#[test]
fn uses_a_freed_place_again(rt: HostRuntime) -> Result<(), Fail> {
    let mut memory = [EARLY; 2];
    let len = put(&mut memory, 0, LATE)?;
    let len = put(&mut memory, len, EARLY)?;
    let (first, len) = take_first(&mut memory, len).ok_or("empty")?;
    assert_eq!(rt; first, EARLY);
    let len = put(&mut memory, len, LATE_TOO)?;
    assert_eq!(rt; len, 2);
    assert_eq!(rt; memory, [LATE, LATE_TOO]);
    assert_eq!(rt; show(&memory, len, 2), None);
    Ok(())
}

#[test]
fn serves_by_arrival_then_flow(rt: HostRuntime) -> Result<(), Fail> {
    let second = Waiting {
        flow: 2,
        number: 1,
        arrival: 10,
    };
    let first = Waiting {
        flow: 1,
        number: 1,
        arrival: 10,
    };
    let mut queue = Queue::new();
    queue.join(second)?;
    queue.join(first)?;
    assert_eq!(rt; queue.leave(), Some(first));
    assert_eq!(rt; queue.head(), Some(second));
    Ok(())
}

#[test]
fn keeps_records_of_its_own(rt: HostRuntime) -> Result<(), Fail> {
    let late = Waiting {
        flow: 1,
        number: 1,
        arrival: 20,
    };
    let early = Waiting {
        flow: 1,
        number: 2,
        arrival: 10,
    };
    let mut table = Table::<Waiting, 2>::new();
    assert!(rt; table.is_empty());
    table.put(late)?;
    table.put(early)?;
    assert_eq!(rt; table.put(late), Err(Full));
    assert_eq!(rt; table.records(), [early, late].as_slice());
    assert_eq!(rt; table.take_first(), Some(early));
    assert_eq!(rt; table.first(), Some(late));
    Ok(())
}
