//! The lines of the log, and how the bytes of a peer are shown.
use commands::{Agent, Key};
use http_log::{
    Asked, MOST_RECENT, Peer, Recent, Why, ended_line, opened_line, request_line, shown, time_text,
    timed_line,
};
use std::test::Fail;

// what the row shows, the bytes, how many are shown, and their text
#[rattlefmt::skip]
const SHOWN: [(&str, &[u8], usize, &str); 14] = [
    ("a path",                b"/journeys/1/step",    128, "/journeys/1/step"),
    ("no byte",               b"",                    128, ""),
    ("the first that prints", b"!",                   128, "!"),
    ("the last that prints",  b"~",                   128, "~"),
    ("a blank",               b"a b",                 128, "a\\x20b"),
    ("one below a blank",     b"\x1f",                128, "\\x1f"),
    ("one past the last",     b"\x7f",                128, "\\x7f"),
    ("a backslash",           b"\\x0a",               128, "\\x5cx0a"),
    ("ends of a line",        b"/a\r\n[INFO  desk] x", 128, "/a\\x0d\\x0a[INFO\\x20\\x20desk]\\x20x"),
    ("a zero",                b"\x00",                128, "\\x00"),
    ("a colour",              b"\x1b[31m",            128, "\\x1b[31m"),
    ("bytes past ASCII",      b"\xc3\xa9\xff",        128, "\\xc3\\xa9\\xff"),
    ("as many as are shown",  b"abc",                 3,   "abc"),
    ("one more",              b"abcd",                3,   "abc\\.."),
];

#[test]
fn bytes_are_shown_on_one_line(rt: HostRuntime) -> Result<(), Fail> {
    for (case, bytes, most, expected) in SHOWN {
        let text = shown(rt.alloc(), bytes, most)?;
        assert_eq!(rt; text.as_str(), expected, "{case}");
    }
    Ok(())
}

#[test]
fn a_request_has_one_line(rt: HostRuntime) -> Result<(), Fail> {
    let mut asked = Asked {
        agent: b"ann",
        method: b"POST",
        target: b"/journeys/1/step",
        status: b"200",
        key: b"k-1",
        again: true,
        refused: b"",
        millis: 0,
    };
    let mut peer = Peer {
        number: 4,
        is_house: false,
    };
    let line = request_line(rt.alloc(), peer, &asked)?;
    assert_eq!(rt;
        line.as_str(),
        "request connection=4 door=port agent=ann method=POST target=/journeys/1/step status=200 key=k-1 again=yes refused= ms=0"
    );
    asked.agent = b"";
    asked.key = b"";
    asked.target = b"/stop\n";
    asked.status = b"lost";
    asked.again = false;
    asked.refused = b"28";
    asked.millis = 18_446_744_073_709_551_615;
    peer.is_house = true;
    let line = request_line(rt.alloc(), peer, &asked)?;
    assert_eq!(rt;
        line.as_str(),
        "request connection=4 door=house agent= method=POST target=/stop\\x0a status=lost key= again=no refused=28 ms=18446744073709551615"
    );
    Ok(())
}

// what the row shows, milliseconds since 1970, and the time, or nothing
#[rattlefmt::skip]
static TIMES: [(&str, u64, &str); 7] = [
    ("the first",               0,                   "1970-01-01T00:00:00.000Z"),
    ("a millisecond",           1,                   "1970-01-01T00:00:00.001Z"),
    ("whole tenths",            1_000_000_000_500,   "2001-09-09T01:46:40.500Z"),
    ("a leap day",              1_709_164_800_000,   "2024-02-29T00:00:00.000Z"),
    ("the end of a day",        1_893_455_999_999,   "2029-12-31T23:59:59.999Z"),
    ("the last that has one",   253_402_207_200_999, "9999-12-30T22:00:00.999Z"),
    ("one after it",            253_402_207_201_000, ""),
];

#[test]
fn a_time_is_that_of_rfc_3339(rt: HostRuntime) -> Result<(), Fail> {
    for (case, millis, expected) in &TIMES {
        let text = time_text(rt.alloc(), *millis)?;
        assert_eq!(rt;
            text.as_ref().map_or("", |text| text.as_str()),
            *expected,
            "{case}"
        );
    }
    Ok(())
}

// a line, milliseconds since 1970, and the line with its time, or nothing
#[rattlefmt::skip]
static TIMED: [(&str, u64, &str); 4] = [
    ("opened recovered=3", 1_906_537_267_250,   "2030-06-01T09:41:07.250Z [INFO  desk] opened recovered=3"),
    ("",                   0,                   "1970-01-01T00:00:00.000Z [INFO  desk] "),
    ("a",                  253_402_207_200_999, "9999-12-30T22:00:00.999Z [INFO  desk] a"),
    ("a",                  253_402_207_201_000, ""),
];

#[test]
fn a_line_with_its_time_is_the_time_and_the_line(rt: HostRuntime) -> Result<(), Fail> {
    for (line, millis, expected) in &TIMED {
        let text = timed_line(rt.alloc(), *millis, line)?;
        assert_eq!(rt; text.as_ref().map_or("", |text| text.as_str()), *expected);
    }
    Ok(())
}

// why a connection ended, and the word for it
#[rattlefmt::skip]
const WHY: [(Why, &str); 9] = [
    (Why::Left,        "left"),
    (Why::CutOff,      "cut-off"),
    (Why::NotTaken,    "not-taken"),
    (Why::Closed,      "closed"),
    (Why::LateRequest, "late-request"),
    (Why::LatePage,    "late-page"),
    (Why::Displaced,   "displaced"),
    (Why::Memory,      "memory"),
    (Why::Stopped,     "stopped"),
];

#[test]
fn an_end_and_an_opening_have_one_line(rt: HostRuntime) -> Result<(), Fail> {
    let peer = Peer {
        number: 18_446_744_073_709_551_615,
        is_house: false,
    };
    for (why, word) in WHY {
        let line = ended_line(rt.alloc(), peer, 12, why)?;
        let expected = format!(in rt.alloc();
            "ended connection=18446744073709551615 door=port requests=12 why={word}"
        )?;
        assert_eq!(rt; line.as_str(), expected.as_str());
    }
    let line = opened_line(rt.alloc(), 3)?;
    assert_eq!(rt; line.as_str(), "opened recovered=3");
    Ok(())
}

#[test]
fn the_last_1024_keys_are_remembered(rt: HostRuntime) -> Result<(), Fail> {
    let mut recent = Recent::new(rt.alloc());
    let ann = Agent::parse("ann").expect(&rt, "an agent");
    let bob = Agent::parse("bob").expect(&rt, "an agent");
    let first = Key::parse("first").expect(&rt, "a key");
    assert!(rt; !recent.put(ann, first)?);
    assert!(rt; recent.put(ann, first)?);
    assert!(rt;
        !recent.put(bob, first)?,
        "the key of another agent is another"
    );
    for i in 2..MOST_RECENT {
        let text = i.to_string(rt.alloc())?;
        let key = Key::parse(text.as_str()).expect(&rt, "a key");
        assert!(rt; !recent.put(ann, key)?, "{i}");
    }
    assert!(rt; recent.put(ann, first)?, "as many as are remembered");
    let one_more = Key::parse("one-more").expect(&rt, "a key");
    assert!(rt; !recent.put(ann, one_more)?);
    assert!(rt; recent.put(bob, first)?, "the second is remembered");
    assert!(rt; !recent.put(ann, first)?, "the oldest is forgotten");
    Ok(())
}
