// What cycles come out on examples.
use crate::cycle::*;
use traffic::flow::Flow;

// A flow with this period and this leave to miss.
fn flow(period: u32, miss: u8, among: u8) -> Flow {
    Flow {
        queue: 7,
        octets: 64,
        period,
        deadline: period,
        miss,
        among,
        weight: 0,
    }
}

#[test]
fn every_second_packet_doubles_the_cycle(rt: HostRuntime) {
    assert_eq!(rt;
        cycle_within(&[flow(10_000, 1, 2)], LONGEST_CYCLE),
        Some(20_000)
    );
}

#[test]
fn coprime_periods_multiply(rt: HostRuntime) {
    assert_eq!(rt;
        cycle_within(
            &[flow(7, 0, 1), flow(11, 0, 1), flow(13, 0, 1)],
            LONGEST_CYCLE,
        ),
        Some(1_001)
    );
}

#[test]
fn the_longest_cycle_and_one_above(rt: HostRuntime) {
    assert_eq!(rt;
        cycle_within(&[flow(1_000_000_000, 0, 1)], LONGEST_CYCLE),
        Some(1_000_000_000)
    );
    assert_eq!(rt;
        cycle_within(&[flow(1_000_000_001, 0, 1)], LONGEST_CYCLE),
        None
    );
    assert_eq!(rt;
        cycle_within(&[flow(500_000_001, 1, 2)], LONGEST_CYCLE),
        None
    );
}

#[test]
fn patterns_that_the_periods_already_hold_whole(rt: HostRuntime) {
    assert_eq!(rt;
        cycle_within(&[flow(10, 1, 2), flow(20, 0, 1)], LONGEST_CYCLE),
        Some(20)
    );
    assert_eq!(rt;
        cycle_within(&[flow(10, 1, 2), flow(30, 0, 1)], LONGEST_CYCLE),
        Some(60)
    );
}

#[test]
fn numbers_begin_again_in_each_cycle(rt: HostRuntime) {
    assert_eq!(rt; number_in_cycle(20_000, &flow(10_000, 1, 2), 4), Some(2));
    assert_eq!(rt; number_in_cycle(20_000, &flow(10_000, 1, 2), 5), Some(1));
    assert_eq!(rt; number_in_cycle(9_999, &flow(10_000, 1, 2), 5), None);
}
