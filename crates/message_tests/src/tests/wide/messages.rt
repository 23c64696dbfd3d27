//! The first message of what clients, proxies and browsers send, and of what would smuggle a request.
use super::texts::told;
use http_messages::{first_wide_message, go_on_is_due};
use std::alloc::{AllocError, Global};
use std::process::Abort;

/// Stops the test where the bytes begin with another message.
fn begins(rt: &impl Abort, alloc: Global, bytes: &[u8], expected: &str, case: &str) {
    let found = first_wide_message(alloc, bytes).expect(rt, "memory");
    let text = told(alloc, &found).expect(rt, "memory");
    let length = bytes.len();
    assert!(rt; text.as_str() == expected, "{case}, {length} bytes: {text}");
}

/// Stops the test where a part of the bytes, cut anywhere, begins with another message than all of them.
fn comes(rt: &impl Abort, alloc: Global, bytes: &[u8], expected: &str, case: &str) {
    for cut in 0..bytes.len() {
        let (part, _) = bytes.split_at(cut);
        let found = first_wide_message(alloc, part).expect(rt, "memory");
        let text = told(alloc, &found).expect(rt, "memory");
        assert!(rt;
            text.as_str() == "-" || text.as_str() == expected,
            "{case}, cut at {cut}: {text}"
        );
    }
    begins(rt, alloc, bytes, expected, case);
}

/// These bytes, one after the other.
fn both(alloc: Global, bytes: &[u8], more: &[u8]) -> Result<Vec<u8>, AllocError> {
    let mut all = bytes.to_vec(alloc)?;
    all.extend_from_slice(more)?;
    Ok(all)
}

// a request, what comes after it, and what it asks: for what, then the method, target, host, agent, key and body of the
// request that stands for it, whether the connection ends, and how many bytes it has
#[rattlefmt::skip]
const REQUESTS: [(&str, &[u8], &[u8], &str); 39] = [
    ("a body by its length", b"POST /journeys HTTP/1.1\r\nHost: d\r\nDesk-Agent: ann\r\nDesk-Key: k1\r\nContent-Length: 4\r\n\r\nabcd",
        b"",
        "post POST /journeys d ann k1 abcd open 90"),
    ("the same in chunks", b"POST /journeys HTTP/1.1\r\nHost: d\r\nDesk-Agent: ann\r\nDesk-Key: k1\r\nTransfer-Encoding: chunked\r\n\r\n2\r\nab\r\n2;x=y\r\ncd\r\n0\r\nX: y\r\n\r\n",
        b"",
        "post POST /journeys d ann k1 abcd open 124"),
    ("neither length nor chunks", b"POST /journeys/1/step HTTP/1.1\r\nHost: d\r\nDesk-Agent: ann\r\n\r\n",
        b"",
        "post POST /journeys/1/step d ann -  open 60"),
    ("HTTP/1.0", b"GET /stock HTTP/1.0\r\nHost: d\r\n\r\n",
        b"",
        "get GET /stock d - -  close 32"),
    ("HTTP/1.0 without a host", b"GET /stock HTTP/1.0\r\n\r\n",
        b"",
        "get GET /stock  - -  close 23"),
    ("a pool of HTTP/1.0 that would stay", b"GET /stock HTTP/1.0\r\nConnection: keep-alive\r\n\r\n",
        b"",
        "get GET /stock  - -  close 47"),
    ("a target in absolute form", b"GET http://d:80/stock HTTP/1.1\r\nHost: d:80\r\n\r\n",
        b"",
        "get GET /stock d:80 - -  open 46"),
    ("the same in capitals", b"GET HTTP://D/stock HTTP/1.1\r\nHost: d\r\n\r\n",
        b"",
        "get GET /stock D - -  open 40"),
    ("that of another host", b"GET http://e:8080/stock HTTP/1.1\r\nHost: d\r\n\r\n",
        b"",
        "get GET /stock e:8080 - -  open 45"),
    ("that of HTTP/1.0 without a host", b"GET http://d/stock HTTP/1.0\r\n\r\n",
        b"",
        "get GET /stock d - -  close 31"),
    ("an absolute form without a host", b"GET http:///stock HTTP/1.1\r\nHost: d\r\n\r\n",
        b"",
        "get GET http:///stock d - -  open 39"),
    ("one without a path", b"GET http://d?a=/stock HTTP/1.1\r\nHost: d\r\n\r\n",
        b"",
        "get GET http://d?a=/stock d - -  open 43"),
    ("another scheme", b"GET https://d/stock HTTP/1.1\r\nHost: d\r\n\r\n",
        b"",
        "get GET https://d/stock d - -  open 41"),
    ("an empty query", b"GET /stock? HTTP/1.1\r\nHost: d\r\n\r\n",
        b"",
        "get GET /stock d - -  open 33"),
    ("an empty query in absolute form", b"GET http://d/stock? HTTP/1.1\r\nHost: d\r\n\r\n",
        b"",
        "get GET /stock d - -  open 41"),
    ("a query", b"GET /stock?_=1 HTTP/1.1\r\nHost: d\r\n\r\n",
        b"",
        "get GET /stock?_=1 d - -  open 36"),
    ("close in a list", b"GET /stock HTTP/1.1\r\nHost: d\r\nConnection: TE, close\r\n\r\n",
        b"",
        "get GET /stock d - -  close 55"),
    ("an upgrade", b"GET /stock HTTP/1.1\r\nHost: d\r\nConnection: Upgrade, HTTP2-Settings\r\nUpgrade: h2c\r\n\r\n",
        b"",
        "get GET /stock d - -  open 83"),
    ("a UUID", b"POST /journeys/1/step HTTP/1.1\r\nHost: d\r\nDesk-Key: 7d444840-9dc0-11d1-b245-5ffdce74fad2\r\n\r\n",
        b"",
        "post POST /journeys/1/step d - 7d4448409dc011d1b2455ffdce74fad2  open 91"),
    ("a UUID with a letter that is no digit", b"POST / HTTP/1.1\r\nHost: d\r\nDesk-Key: 7d444840-9dc0-11d1-b245-5ffdce74fadg\r\n\r\n",
        b"",
        "post POST / d - -  open 76"),
    ("a UUID with a hyphen elsewhere", b"POST / HTTP/1.1\r\nHost: d\r\nDesk-Key: 7d4448409-dc0-11d1-b245-5ffdce74fad2\r\n\r\n",
        b"",
        "post POST / d - -  open 76"),
    ("two keys", b"POST / HTTP/1.1\r\nHost: d\r\nDesk-Key: k1\r\nDesk-Key: k1\r\n\r\n",
        b"",
        "post POST / d - -  open 56"),
    ("HEAD", b"HEAD /stock HTTP/1.1\r\nHost: d\r\n\r\n",
        b"",
        "head GET /stock d - -  open 33"),
    ("OPTIONS of the desk", b"OPTIONS * HTTP/1.1\r\nHost: d\r\n\r\n",
        b"",
        "options OPTIONS * d - -  open 31"),
    ("a preflight", b"OPTIONS /journeys HTTP/1.1\r\nHost: d\r\nOrigin: null\r\nAccess-Control-Request-Method: POST\r\n\r\n",
        b"",
        "options OPTIONS /journeys d - -  open 90"),
    ("another method", b"BREW /pot HTTP/1.1\r\nHost: d\r\n\r\n",
        b"",
        "other BREW /pot d - -  open 31"),
    ("a method in small letters", b"get /stock HTTP/1.1\r\nHost: d\r\n\r\n",
        b"",
        "other get /stock d - -  open 32"),
    ("field names in small letters", b"GET /stock HTTP/1.1\r\nhost: d\r\ndesk-agent: ann\r\n\r\n",
        b"",
        "get GET /stock d ann -  open 49"),
    ("meant for who asks", b"GET /stock HTTP/1.1\r\nHost: d\r\nDesk-Agent: ann\r\nDesk-For: ann\r\n\r\n",
        b"",
        "get GET /stock d ann -  open 64"),
    ("meant for another", b"GET /stock HTTP/1.1\r\nHost: d\r\nDesk-Agent: ann\r\nDesk-For: bob\r\n\r\n",
        b"",
        "get GET /stock d - -  open 64"),
    ("meant twice", b"GET /stock HTTP/1.1\r\nHost: d\r\nDesk-Agent: ann\r\nDesk-For: ann\r\nDesk-For: ann\r\n\r\n",
        b"",
        "get GET /stock d - -  open 79"),
    ("empty lines before it", b"\r\n\nGET /stock HTTP/1.1\r\nHost: d\r\n\r\n",
        b"",
        "get GET /stock d - -  open 35"),
    ("a body of a GET", b"GET /stock HTTP/1.1\r\nHost: d\r\nContent-Length: 2\r\n\r\n{}",
        b"",
        "get GET /stock d - - {} open 53"),
    ("a length of many digits", b"POST / HTTP/1.1\r\nHost: d\r\nContent-Length: 00000000000000000002\r\n\r\n{}",
        b"",
        "post POST / d - - {} open 68"),
    ("a request in a body by its length", b"POST / HTTP/1.1\r\nHost: d\r\nContent-Length: 27\r\n\r\nGET / HTTP/1.1\r\nhost: x\r\n\r\n",
        b"",
        "post POST / d - - GET / HTTP/1.1\r\nhost: x\r\n\r\n open 75"),
    ("a request after a body", b"POST / HTTP/1.1\r\nHost: d\r\nContent-Length: 2\r\n\r\n{}",
        b"GET / HTTP/1.1\r\nhost: x\r\n\r\n",
        "post POST / d - - {} open 49"),
    ("a request after chunks", b"POST / HTTP/1.1\r\nHost: d\r\nTransfer-Encoding: chunked\r\n\r\n2\r\n{}\r\n0\r\n\r\n",
        b"GET / HTTP/1.1\r\nhost: x\r\n\r\n",
        "post POST / d - - {} open 68"),
    ("a request after no body", b"POST / HTTP/1.1\r\nHost: d\r\n\r\n",
        b"GET / HTTP/1.1\r\nhost: x\r\n\r\n",
        "post POST / d - -  open 28"),
    ("a last chunk in a body by its length", b"POST / HTTP/1.1\r\nHost: d\r\nContent-Length: 5\r\n\r\n0\r\n\r\n",
        b"GET / HTTP/1.1\r\n",
        "post POST / d - - 0\r\n\r\n open 52"),
];

#[test]
fn a_request_is_the_same_however_it_is_cut(rt: HostRuntime) {
    let alloc = rt.alloc();
    for (case, bytes, more, expected) in REQUESTS {
        comes(&rt, alloc, bytes, expected, case);
        // all but the last byte is no message
        let (part, _) = bytes.split_at(bytes.len().saturating_sub(1));
        begins(&rt, alloc, part, "-", case);
        for after in [
            more,
            b"GET / HTTP/1.1\r\nHost: e\r\n\r\n".as_slice(),
            b"\x00".as_slice(),
        ] {
            let all = both(alloc, bytes, after).expect(&rt, "memory");
            begins(&rt, alloc, &all, expected, case);
        }
    }
}

// what is not read, and its status
#[rattlefmt::skip]
const DENIED: [(&str, &[u8], &str); 36] = [
    ("a length, then chunks", b"POST / HTTP/1.1\r\nHost: d\r\nContent-Length: 5\r\nTransfer-Encoding: chunked\r\n\r\n", "400"),
    ("chunks, then a length", b"POST / HTTP/1.1\r\nHost: d\r\nTransfer-Encoding: chunked\r\nContent-Length: 5\r\n\r\n", "400"),
    ("two lengths", b"POST / HTTP/1.1\r\nHost: d\r\nContent-Length: 5\r\nContent-Length: 6\r\n\r\n", "400"),
    ("the same length twice", b"POST / HTTP/1.1\r\nHost: d\r\nContent-Length: 5\r\nContent-Length: 5\r\n\r\n", "400"),
    ("a list of lengths", b"POST / HTTP/1.1\r\nHost: d\r\nContent-Length: 5, 5\r\n\r\n", "400"),
    ("a length with a sign", b"POST / HTTP/1.1\r\nHost: d\r\nContent-Length: +5\r\n\r\n", "400"),
    ("a length in hexadecimal", b"POST / HTTP/1.1\r\nHost: d\r\nContent-Length: 0x5\r\n\r\n", "400"),
    ("chunks twice", b"POST / HTTP/1.1\r\nHost: d\r\nTransfer-Encoding: chunked, chunked\r\n\r\n", "400"),
    ("chunks in two fields", b"POST / HTTP/1.1\r\nHost: d\r\nTransfer-Encoding: chunked\r\nTransfer-Encoding: chunked\r\n\r\n", "400"),
    ("another coding", b"POST / HTTP/1.1\r\nHost: d\r\nTransfer-Encoding: gzip, chunked\r\n\r\n", "501"),
    ("a coding that is like chunks", b"POST / HTTP/1.1\r\nHost: d\r\nTransfer-Encoding: xchunked\r\n\r\n", "501"),
    ("chunks in HTTP/1.0", b"POST / HTTP/1.0\r\nHost: d\r\nTransfer-Encoding: chunked\r\n\r\n", "400"),
    ("a blank before a colon", b"POST / HTTP/1.1\r\nHost: d\r\nContent-Length : 5\r\n\r\n", "400"),
    ("a folded line", b"POST / HTTP/1.1\r\nHost: d\r\nTransfer-Encoding:\r\n chunked\r\n\r\n", "400"),
    ("a field before the fields", b"POST / HTTP/1.1\r\n Host: d\r\n\r\n", "400"),
    ("no size of a chunk", b"POST / HTTP/1.1\r\nHost: d\r\nTransfer-Encoding: chunked\r\n\r\n\r\n{}", "400"),
    ("a size with a sign", b"POST / HTTP/1.1\r\nHost: d\r\nTransfer-Encoding: chunked\r\n\r\n-1\r\n{}", "400"),
    ("a size in other letters", b"POST / HTTP/1.1\r\nHost: d\r\nTransfer-Encoding: chunked\r\n\r\ng\r\n{}", "400"),
    ("a size line with LF alone", b"POST / HTTP/1.1\r\nHost: d\r\nTransfer-Encoding: chunked\r\n\r\n2\n{}", "400"),
    ("a chunk longer than its size", b"POST / HTTP/1.1\r\nHost: d\r\nTransfer-Encoding: chunked\r\n\r\n1\r\n{}", "400"),
    ("a request as a trailer", b"POST / HTTP/1.1\r\nHost: d\r\nTransfer-Encoding: chunked\r\n\r\n0\r\nGET / HTTP/1.1\r\n\r\n", "400"),
    ("no host", b"GET / HTTP/1.1\r\n\r\n", "400"),
    ("two hosts", b"GET / HTTP/1.1\r\nHost: d\r\nHost: d\r\n\r\n", "400"),
    ("two hosts of HTTP/1.0", b"GET / HTTP/1.0\r\nHost: d\r\nHost: d\r\n\r\n", "400"),
    ("content for CONNECT", b"CONNECT d:80 HTTP/1.1\r\nHost: d\r\nContent-Length: 2\r\n\r\n{}", "400"),
    ("too large a length", b"POST / HTTP/1.1\r\nHost: d\r\nContent-Length: 262145\r\n\r\n", "413"),
    ("a length of ten digits", b"POST / HTTP/1.1\r\nHost: d\r\nContent-Length: 4294967296\r\n\r\n", "413"),
    ("HTTP/2.0", b"PRI * HTTP/2.0\r\n\r\n", "505"),
    ("HTTP/1.2", b"GET / HTTP/1.2\r\nHost: d\r\n\r\n", "505"),
    ("HTTP/0.9 with a version", b"GET / HTTP/0.9\r\n\r\n", "505"),
    ("no version", b"GET /\r\n\r\n", "400"),
    ("a version in small letters", b"GET / http/1.1\r\nHost: d\r\n\r\n", "400"),
    ("a TLS hello", b"\x16\x03\x01\x02\x00", "ended"),
    ("a byte that is no letter", b"\xff", "ended"),
    ("a blank", b" GET / HTTP/1.1\r\n", "ended"),
    ("a blank after an empty line", b"\r\n GET / HTTP/1.1\r\n", "ended"),
];

#[test]
fn what_is_not_read_has_its_status_however_it_is_cut(rt: HostRuntime) {
    let alloc = rt.alloc();
    for (case, bytes, expected) in DENIED {
        comes(&rt, alloc, bytes, expected, case);
        let all = both(alloc, bytes, b"GET / HTTP/1.1\r\nHost: e\r\n\r\n").expect(&rt, "memory");
        begins(&rt, alloc, &all, expected, case);
    }
}

// what is not whole
#[rattlefmt::skip]
const OPEN: [(&str, &[u8]); 7] = [
    ("nothing", b""),
    ("line ends", b"\r\n\r\n"),
    ("a part of a line", b"GET / HT"),
    ("a head without its empty line", b"GET / HTTP/1.1\r\nHost: d\r\n"),
    ("a part of a body", b"POST / HTTP/1.1\r\nHost: d\r\nContent-Length: 2\r\n\r\n{"),
    ("a chunk without the last", b"POST / HTTP/1.1\r\nHost: d\r\nTransfer-Encoding: chunked\r\n\r\n2\r\n{}\r\n"),
    ("trailer fields that are not ended", b"POST / HTTP/1.1\r\nHost: d\r\nTransfer-Encoding: chunked\r\n\r\n0\r\nX: y\r\n"),
];

#[test]
fn what_is_not_whole_is_no_message(rt: HostRuntime) {
    for (case, bytes) in OPEN {
        comes(&rt, rt.alloc(), bytes, "-", case);
    }
}

/// A head with so many fields after its host, of as many bytes.
fn head_of(alloc: Global, fields: usize, field: &[u8]) -> Result<Vec<u8>, AllocError> {
    let mut bytes = b"GET /stock HTTP/1.1\r\nHost: d\r\n".to_vec(alloc)?;
    for _ in 0..fields {
        bytes.extend_from_slice(field)?;
    }
    bytes.extend_from_slice(b"\r\n")?;
    Ok(bytes)
}

#[test]
fn a_head_has_at_most_32_fields(rt: HostRuntime) {
    let alloc = rt.alloc();
    let full = head_of(alloc, 31, b"a: b\r\n").expect(&rt, "memory");
    begins(
        &rt,
        alloc,
        &full,
        "get GET /stock d - -  open 218",
        "32 fields",
    );
    let long = head_of(alloc, 32, b"a: b\r\n").expect(&rt, "memory");
    comes(&rt, alloc, &long, "431", "33 fields");
}

/// A head with one long field, of so many bytes in all.
fn long_head(alloc: Global, count: usize) -> Result<Vec<u8>, AllocError> {
    let mut bytes = b"GET /stock HTTP/1.1\r\nHost: d\r\na: ".to_vec(alloc)?;
    for _ in bytes.len().saturating_add(4)..count {
        bytes.push(b'b')?;
    }
    bytes.extend_from_slice(b"\r\n\r\n")?;
    Ok(bytes)
}

#[test]
fn a_head_has_at_most_8192_bytes(rt: HostRuntime) {
    let alloc = rt.alloc();
    let full = long_head(alloc, 8_192).expect(&rt, "memory");
    begins(
        &rt,
        alloc,
        &full,
        "get GET /stock d - -  open 8192",
        "8,192 bytes",
    );
    let long = long_head(alloc, 8_193).expect(&rt, "memory");
    begins(&rt, alloc, &long, "431", "8,193 bytes");
    let blank = vec![in alloc; b'\n'; 8_192].expect(&rt, "memory");
    begins(&rt, alloc, &blank, "431", "nothing but line ends");
}

/// A POST in chunks of 4,096 bytes, so many of them, and then this text.
fn chunks(alloc: Global, count: usize, end: &[u8]) -> Result<Vec<u8>, AllocError> {
    let mut bytes = b"POST / HTTP/1.1\r\nHost: d\r\nTransfer-Encoding: chunked\r\n\r\n".to_vec(
        alloc,
    )?;
    for _ in 0..count {
        bytes.extend_from_slice(b"1000\r\n")?;
        for _ in 0..4_096u16 {
            bytes.push(b'x')?;
        }
        bytes.extend_from_slice(b"\r\n")?;
    }
    bytes.extend_from_slice(end)?;
    Ok(bytes)
}

#[test]
fn chunks_of_more_than_the_largest_body_are_too_large(rt: HostRuntime) {
    let alloc = rt.alloc();
    let full = chunks(alloc, 64, b"0\r\n\r\n").expect(&rt, "memory");
    let found = first_wide_message(alloc, &full).expect(&rt, "memory");
    let whole = match &found {
        Some((_, count)) => *count == full.len(),
        None => false,
    };
    assert!(rt; whole, "the largest body");
    let large = chunks(alloc, 64, b"1\r\nx").expect(&rt, "memory");
    begins(&rt, alloc, &large, "413", "one byte more");
}

// the bytes so far, and whether 100 Continue is due
#[rattlefmt::skip]
const DUE: [(&str, &[u8], bool); 8] = [
    ("a body by its length",   b"POST / HTTP/1.1\r\nHost: d\r\nExpect: 100-continue\r\nContent-Length: 2\r\n\r\n", true),
    ("a body in chunks",       b"POST / HTTP/1.1\r\nHost: d\r\nexpect: 100-Continue\r\nTransfer-Encoding: chunked\r\n\r\n", true),
    ("no body",                b"POST / HTTP/1.1\r\nHost: d\r\nExpect: 100-continue\r\nContent-Length: 0\r\n\r\n", false),
    ("a byte of it came",      b"POST / HTTP/1.1\r\nHost: d\r\nExpect: 100-continue\r\nContent-Length: 2\r\n\r\n{", false),
    ("a head that is not whole", b"POST / HTTP/1.1\r\nHost: d\r\nExpect: 100-continue\r\nContent-Length: 2\r\n", false),
    ("HTTP/1.0",               b"POST / HTTP/1.0\r\nHost: d\r\nExpect: 100-continue\r\nContent-Length: 2\r\n\r\n", false),
    ("a body that is too large", b"POST / HTTP/1.1\r\nHost: d\r\nExpect: 100-continue\r\nContent-Length: 262145\r\n\r\n", false),
    ("nobody asks for it",     b"POST / HTTP/1.1\r\nHost: d\r\nContent-Length: 2\r\n\r\n", false),
];

#[test]
fn a_body_is_asked_for_once(rt: HostRuntime) {
    for (case, bytes, expected) in DUE {
        assert_eq!(rt; go_on_is_due(bytes, false), expected, "{case}");
        assert!(rt; !go_on_is_due(bytes, true), "{case}, again");
    }
}
