// Arrival sources by example.
#![tactic(auto)]

ghost use Rattle.std.specs.Prelude.{◌≡◌};

use traffic::packet::Packet;

// Packet `number` of a flow, which arrives then.
pub const fn packet(flow: u8, number: u64, arrival: u64) -> Packet
    ensures { (result.flow ≡ flow) × (result.number ≡ number) × (result.arrival ≡ arrival) }
{
    Packet {
        flow,
        number,
        arrival,
    }
}

#[cfg(test)]
mod tests {
    use super::*;
    use arrivals::calendar::Calendar;
    use arrivals::calendar::both::both_sorts;
    use arrivals::capture::Capture;
    use arrivals::faults::{CalendarFault, CaptureFault};
    use arrivals::merge::Merge;
    use arrivals::sort::Sort;
    use arrivals::source::ArrivalSource;
    use sheet::sheet::Sheet;
    use std::array;
    use std::test::Fail;

    // Every second packet of flow 1 is optional; its period is half that of flow 2.
    const SHEET: &[u8] =
        b"rate=1000\nflow=1\nqueue=7\noctets=64\nperiod=10000\ndeadline=5000\nmiss=1\nof=2\nweight=0\nflow=2\nqueue=6\noctets=64\nperiod=20000\ndeadline=5000\nmiss=0\nof=1\nweight=0\nflows=2\n";

    #[test]
    fn both_sorts_of_coinciding_periods(rt: HostRuntime) -> Result<(), Fail> {
        let mut sheet = Sheet::new(rt.alloc());
        sheet.read(SHEET)?;
        let mut both = both_sorts(&sheet, 2)?;
        assert_eq!(rt; both.head(), Some(packet(1, 1, 0)));
        for next in [
            packet(1, 1, 0),
            packet(2, 1, 0),
            packet(1, 2, 10_000),
            packet(1, 3, 20_000),
            packet(2, 2, 20_000),
            packet(1, 4, 30_000),
        ] {
            assert_eq!(rt; both.take(), Some(next));
        }
        assert_eq!(rt; both.head(), None);
        assert_eq!(rt; both.take(), None);
        Ok(())
    }

    #[test]
    fn a_long_calendar_is_made_at_once(rt: HostRuntime) -> Result<(), Fail> {
        let mut sheet = Sheet::new(rt.alloc());
        sheet.read(SHEET)?;
        let mut optional = Calendar::new(&sheet, Sort::Optional, 4_000_000_000)?;
        assert_eq!(rt; optional.take(), Some(packet(1, 2, 10_000)));
        assert_eq!(rt; optional.take(), Some(packet(1, 4, 30_000)));
        Ok(())
    }

    #[test]
    fn calendars_that_are_refused(rt: HostRuntime) -> Result<(), Fail> {
        let mut sheet = Sheet::new(rt.alloc());
        assert_eq!(rt;
            Calendar::new(&sheet, Sort::Mandatory, 0).err(),
            Some(CalendarFault::EmptySheet)
        );
        sheet.read(SHEET)?;
        assert_eq!(rt;
            Calendar::new(&sheet, Sort::Mandatory, 0).err(),
            Some(CalendarFault::CyclesOutOfRange)
        );
        assert_eq!(rt;
            Calendar::new(&sheet, Sort::Mandatory, 4_000_000_001).err(),
            Some(CalendarFault::CyclesOutOfRange)
        );
        Ok(())
    }

    #[test]
    fn a_capture_of_4096_and_one_more(rt: HostRuntime) -> Result<(), Fail> {
        let packets: [Packet; 4097] = array::from_fn(|i| packet(1, 1, i as u64));
        assert!(rt; Capture::new(&packets[..4096]).is_ok());
        assert_eq!(rt;
            Capture::new(&packets).err(),
            Some(CaptureFault { place: 4097 })
        );
        Ok(())
    }

    #[test]
    fn arrivals_at_the_end_of_time(rt: HostRuntime) -> Result<(), Fail> {
        let packets = [
            packet(1, 1, u64::MAX - 1),
            packet(1, 2, u64::MAX),
            packet(2, 1, u64::MAX),
            packet(2, 1, u64::MAX),
        ];
        let mut capture = Capture::new(&packets[..3])?;
        assert_eq!(rt; capture.take(), Some(packet(1, 1, u64::MAX - 1)));
        assert_eq!(rt; capture.head(), Some(packet(1, 2, u64::MAX)));
        assert_eq!(rt;
            Capture::new(&packets).err(),
            Some(CaptureFault { place: 4 })
        );
        Ok(())
    }

    #[test]
    fn of_equals_the_first_source_comes_first(rt: HostRuntime) -> Result<(), Fail> {
        let first = [packet(1, 10, 5), packet(1, 11, 9)];
        let second = [packet(1, 20, 5), packet(2, 21, 5)];
        let third = [packet(1, 30, 5), packet(1, 31, 6)];
        let inner = Merge::new(Capture::new(&first)?, Capture::new(&second)?);
        let mut all = Merge::new(inner, Capture::new(&third)?);
        for next in [
            packet(1, 10, 5),
            packet(1, 20, 5),
            packet(1, 30, 5),
            packet(2, 21, 5),
            packet(1, 31, 6),
            packet(1, 11, 9),
        ] {
            assert_eq!(rt; all.take(), Some(next));
        }
        assert_eq!(rt; all.take(), None);
        Ok(())
    }
}
