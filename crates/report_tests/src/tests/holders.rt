//! The report of the holders of a cell: texts with values from outside, and what is written before a source or a writer
//! fails.
use super::fakes::Failing;
use super::{ROOM, is_told, with_room};
use commands::Fault;
use failing_streams::Sink;
use reports::{Holder, ReportFault, holders_text};
use saga_core::{Format, Listed};
use std::alloc::AllocError;

/// The first two steps of journey 3, step 24 of journey 41, and a step of the journey with the greatest number.
const HOLDERS: [Holder; 4] = [
    Holder {
        journey: 3,
        step: 1,
        option: 1,
        places: 2,
    },
    Holder {
        journey: 3,
        step: 2,
        option: 1,
        places: 1,
    },
    Holder {
        journey: 41,
        step: 24,
        option: 8,
        places: 50,
    },
    Holder {
        journey: 999_999_999_999,
        step: 1,
        option: 2,
        places: 7,
    },
];

const HEADING: &str = "     journey   step option places\n";

const FIRST_LINES: &str = "     journey   step option places
           3      1      1      2
";

const TEXT: &str = "     journey   step option places
           3      1      1      2
           3      2      1      1
          41     24      8     50
999999999999      1      2      7
holders 4
";

const OBJECTS: &str = r#"{"journey":3,"option":1,"places":2,"step":1}
{"journey":3,"option":1,"places":1,"step":2}
{"journey":41,"option":8,"places":50,"step":24}
{"journey":999999999999,"option":2,"places":7,"step":1}
"#;

const RECORDS: &str = "journey,step,option,places\r
3,1,1,2\r
3,2,1,1\r
41,24,8,50\r
999999999999,1,2,7\r
";

// the format, what it writes of the four holders, and of none
#[rattlefmt::skip]
const REPORTS: [(Format, &str, &str); 3] = [
    (Format::Text, TEXT, "     journey   step option places\nholders 0\n"),
    (Format::Json, OBJECTS, ""),
    (Format::Csv, RECORDS, "journey,step,option,places\r\n"),
];

#[test]
fn holders_are_shown_in_each_format(rt: HostRuntime) {
    let alloc = rt.alloc();
    for &(format, whole, empty) in &REPORTS {
        let mut out = with_room(&rt, alloc);
        let answer = holders_text(alloc, format, &mut Listed::new(&HOLDERS), &mut out);
        is_told(&rt, "four", answer, Ok(4), &out, whole.as_bytes());
        let mut out = with_room(&rt, alloc);
        let none = &HOLDERS[..0];
        let answer = holders_text(alloc, format, &mut Listed::new(none), &mut out);
        is_told(&rt, "none", answer, Ok(0), &out, empty.as_bytes());
    }
}

// how many holders come before the fault, and what is written
#[rattlefmt::skip]
const CUT: [(usize, &str); 2] = [
    (0, HEADING),
    (1, FIRST_LINES),
];

#[test]
fn a_source_that_fails_ends_the_report_between_holders(rt: HostRuntime) {
    let alloc = rt.alloc();
    for &(count, expected) in &CUT {
        for (fault, told) in [
            (Fault::Store, ReportFault::Store),
            (Fault::Memory, ReportFault::Memory),
        ] {
            let mut out = with_room(&rt, alloc);
            let mut source = Failing::new(&HOLDERS[..count], fault);
            let answer = holders_text(alloc, Format::Text, &mut source, &mut out);
            is_told(&rt, expected, answer, Err(told), &out, expected.as_bytes());
        }
    }
}

#[test]
fn a_writer_that_fails_has_a_prefix_of_the_holders(rt: HostRuntime) -> Result<(), AllocError> {
    let alloc = rt.alloc();
    for &(format, whole, _) in &REPORTS {
        for room in 0..whole.len() {
            let mut sink = Sink::new(alloc, 3, room)?;
            let answer = holders_text(alloc, format, &mut Listed::new(&HOLDERS), &mut sink);
            assert!(rt; answer == Err(ReportFault::Write), "{room}: {answer:?}");
            assert!(rt; sink.taken() == &whole.as_bytes()[..room], "{room}");
        }
        let mut sink = Sink::new(alloc, 7, ROOM)?;
        let answer = holders_text(alloc, format, &mut Listed::new(&HOLDERS), &mut sink);
        assert!(rt;
            answer == Ok(4) && sink.taken() == whole.as_bytes(),
            "{answer:?}"
        );
    }
    Ok(())
}
