// Sheets that are read and sheets that are refused, by example.
#![tactic(auto)]

ghost use Rattle.std.specs.Prelude.{◌≡◌, ◌⊎◌, Ok, Err, None, MatchResult};
ghost use Rattle.sheet.specs.declared.faults.SheetFault.{SheetFault};
ghost use Rattle.sheet.specs.Reading.{sheet_of};
ghost use Rattle.sheet.specs.Refusals.{sheet_refusal};

use refusal::Refusal;
use sheet::refusals::sheet_refusal;
use sheet::sheet::Sheet;
use std::alloc::Global;

// Is the text read? Else the refusal that is told, and none where memory is short.
pub fn told(heap: Global, text: &[u8]) -> Result<(), Option<Refusal>>
    ensures { MatchResult result (λ _. (t : _) × (sheet_of text.now ≡ Ok t)) (λ r. (r ≡ None) ⊎ ((e : SheetFault) × (sheet_of text.now ≡ Err e) × (r ≡ sheet_refusal e))) }
{
    Sheet::new(heap).read(text).map_err(sheet_refusal)
}

#[cfg(test)]
mod tests {
    use super::*;
    use std::process::Abort;
    use std::test::Fail;

    const SAMPLE: &[u8] =
        b"rate=1000\nflow=1\nqueue=7\noctets=64\nperiod=10000\ndeadline=5000\nmiss=1\nof=2\nweight=0\nflows=1\n";

    // A text, and the code and the place of its refusal.
    struct Case {
        text: &'static [u8],
        code: u8,
        place: u32,
    }

    const HEADS: [Case; 14] = [
        Case {
            text: b"",
            code: 2,
            place: 1,
        },
        Case {
            text: b"\n",
            code: 2,
            place: 1,
        },
        Case {
            text: b"rate=1000",
            code: 2,
            place: 1,
        },
        Case {
            text: b"rate\n",
            code: 2,
            place: 1,
        },
        Case {
            text: b"Rate=10\n",
            code: 2,
            place: 1,
        },
        Case {
            text: b"rate==10\n",
            code: 3,
            place: 1,
        },
        Case {
            text: b"rate=\n",
            code: 3,
            place: 1,
        },
        Case {
            text: b"rate=10\r\n",
            code: 3,
            place: 1,
        },
        Case {
            text: b"rate=010\n",
            code: 3,
            place: 1,
        },
        Case {
            text: b"rate=1\x000\n",
            code: 3,
            place: 1,
        },
        Case {
            text: b"rate=9999999999\n",
            code: 4,
            place: 1,
        },
        Case {
            text: b"rate=10000000000\n",
            code: 3,
            place: 1,
        },
        Case {
            text: b"rate=10\nflows=0\n",
            code: 2,
            place: 2,
        },
        Case {
            text: b"rate=10\nflow=2\n",
            code: 4,
            place: 2,
        },
    ];

    const FLOWS: [Case; 12] = [
        Case {
            text: b"rate=10\nflow=1\nqueue=0\n",
            code: 4,
            place: 3,
        },
        Case {
            text: b"rate=10\nflow=1\nqueue=8\n",
            code: 4,
            place: 3,
        },
        Case {
            text: b"rate=10\nflow=1\noctets=64\n",
            code: 2,
            place: 3,
        },
        Case {
            text: b"rate=10\nflow=1\nqueue=7\noctets=63\n",
            code: 4,
            place: 4,
        },
        Case {
            text: b"rate=10\nflow=1\nqueue=7\noctets=1523\n",
            code: 4,
            place: 4,
        },
        Case {
            text: b"rate=1000\nflow=1\nqueue=7\noctets=64\nperiod=1000000001\n",
            code: 4,
            place: 5,
        },
        Case {
            text: b"rate=1000\nflow=1\nqueue=7\noctets=64\nperiod=9000\ndeadline=9001\n",
            code: 4,
            place: 6,
        },
        Case {
            text: b"rate=1000\nflow=1\nqueue=7\noctets=64\nperiod=9000\ndeadline=671\n",
            code: 5,
            place: 6,
        },
        Case {
            text: b"rate=1000\nflow=1\nqueue=7\noctets=64\nperiod=9000\ndeadline=672\nmiss=20\n",
            code: 4,
            place: 7,
        },
        Case {
            text: b"rate=1000\nflow=1\nqueue=7\noctets=64\nperiod=9000\ndeadline=672\nmiss=2\nof=2\n",
            code: 4,
            place: 8,
        },
        Case {
            text: b"rate=1000\nflow=1\nqueue=7\noctets=64\nperiod=9000\ndeadline=672\nmiss=2\nof=21\n",
            code: 4,
            place: 8,
        },
        Case {
            text: b"rate=1000\nflow=1\nqueue=7\noctets=64\nperiod=9000\ndeadline=672\nmiss=2\nof=3\nweight=256\n",
            code: 4,
            place: 9,
        },
    ];

    const ENDS: [Case; 6] = [
        Case {
            text: b"rate=1000\nflow=1\nqueue=7\noctets=64\nperiod=9000\ndeadline=672\nmiss=2\nof=3\nweight=255\nflows=2\n",
            code: 4,
            place: 10,
        },
        Case {
            text: b"rate=1000\nflow=1\nqueue=7\noctets=64\nperiod=9000\ndeadline=672\nmiss=2\nof=3\nweight=255\nflows=1",
            code: 2,
            place: 10,
        },
        Case {
            text: b"rate=1000\nflow=1\nqueue=7\noctets=64\nperiod=9000\ndeadline=672\nmiss=2\nof=3\nweight=255\nflows=1\n\n",
            code: 2,
            place: 11,
        },
        Case {
            text: b"rate=1000\nflow=1\nqueue=7\noctets=64\nperiod=9000\ndeadline=672\nmiss=2\nof=3\nweight=255\nflow=1\n",
            code: 4,
            place: 10,
        },
        Case {
            text: b"rate=1000\nflow=1\nqueue=7\noctets=64\nperiod=500000001\ndeadline=672\nmiss=1\nof=2\nweight=0\nflows=1\n",
            code: 6,
            place: 0,
        },
        Case {
            text: b"rate=1000\nflow=1\nqueue=7\noctets=64\nperiod=500000001\ndeadline=672\nmiss=1\nof=2\nweight=0\nflows=1\nx",
            code: 2,
            place: 11,
        },
    ];

    const READ: [&[u8]; 2] = [
        b"rate=1000\nflow=1\nqueue=7\noctets=64\nperiod=9000\ndeadline=672\nmiss=2\nof=3\nweight=255\nflows=1\n",
        b"rate=1000\nflow=1\nqueue=7\noctets=64\nperiod=1000000000\ndeadline=672\nmiss=0\nof=1\nweight=0\nflows=1\n",
    ];

    fn all_refused(rt: &impl Abort, heap: Global, cases: &[Case]) {
        for case in cases {
            let refusal = Refusal::at(case.code, case.place);
            assert_eq!(rt; told(heap, case.text), Err(Some(refusal)));
        }
    }

    #[test]
    fn refused_by_their_lines(rt: HostRuntime) {
        all_refused(&rt, rt.alloc(), &HEADS);
        all_refused(&rt, rt.alloc(), &FLOWS);
        all_refused(&rt, rt.alloc(), &ENDS);
    }

    #[test]
    fn read_to_their_ends(rt: HostRuntime) {
        for text in READ {
            assert_eq!(rt; told(rt.alloc(), text), Ok(()));
        }
    }

    #[test]
    fn sample_is_read(rt: HostRuntime) -> Result<(), Fail> {
        let mut sheet = Sheet::new(rt.alloc());
        sheet.read(SAMPLE)?;
        assert_eq!(rt; sheet.flows().len(), 1);
        assert_eq!(rt; sheet.cycle(), 20_000);
        assert!(rt; sheet.read(b"rate=1000\n").is_err());
        assert_eq!(rt; sheet.flows().len(), 0);
        Ok(())
    }

    #[test]
    fn long_texts(rt: HostRuntime) -> Result<(), Fail> {
        let mut text = vec![in rt.alloc(); 0u8; 61_440]?;
        assert_eq!(rt;
            told(rt.alloc(), text.as_slice()),
            Err(Some(Refusal::at(2, 1)))
        );
        text.push(0)?;
        assert_eq!(rt;
            told(rt.alloc(), text.as_slice()),
            Err(Some(Refusal::at(1, 0)))
        );
        Ok(())
    }

    // A text of `count` flows, and then these bytes.
    fn many(heap: Global, count: u32, end: &str) -> Result<String, Fail> {
        let mut text = String::from_str(heap, "rate=1000\n")?;
        for i in 1..=count {
            let flow = format!(in heap;
                "flow={i}\nqueue=1\noctets=64\nperiod=1000000\ndeadline=1000000\n"
            )?;
            text.push_str(flow.as_str())?;
            text.push_str("miss=0\nof=1\nweight=0\n")?;
        }
        text.push_str(end)?;
        Ok(text)
    }

    #[test]
    fn sixty_four_flows(rt: HostRuntime) -> Result<(), Fail> {
        let heap = rt.alloc();
        assert_eq!(rt;
            told(heap, many(heap, 64, "flows=64\n")?.as_bytes()),
            Ok(())
        );
        assert_eq!(rt;
            told(heap, many(heap, 64, "flows=63\n")?.as_bytes()),
            Err(Some(Refusal::at(4, 514)))
        );
        assert_eq!(rt;
            told(heap, many(heap, 64, "flow=65\n")?.as_bytes()),
            Err(Some(Refusal::at(2, 514)))
        );
        assert_eq!(rt;
            told(heap, many(heap, 65, "flows=65\n")?.as_bytes()),
            Err(Some(Refusal::at(2, 514)))
        );
        Ok(())
    }
}
