//! How the bodies of requests are framed, and what is read of them, however they arrive.
mod bodies;
mod messages;
mod texts;

use bodies::{Expected, Reading};
use http_messages::{BodyFault, BodyKind, Unframed, body_kind};
use http1::fields::KnownFields;
use std::alloc::{AllocError, Global};
use std::process::Abort;
use std::test::Fail;

// the minor version, the fields of a POST, and how its body is framed (RFC 9112, section 6)
#[rattlefmt::skip]
const FRAMINGS: [(&str, u8, &[(&str, &str)], Result<BodyKind, Unframed>); 27] = [
    ("no framing field",            1, &[("Host", "d")],                                             Ok(BodyKind::Sized(0))),
    ("no framing field in 1.0",     0, &[],                                                          Ok(BodyKind::Sized(0))),
    ("no bytes",                    1, &[("Content-Length", "0")],                                   Ok(BodyKind::Sized(0))),
    ("a length, in any case",       1, &[("content-LENGTH", "17")],                                  Ok(BodyKind::Sized(17))),
    ("leading zeros",               1, &[("Content-Length", "000000000000017")],                     Ok(BodyKind::Sized(17))),
    ("the largest",                 1, &[("Content-Length", "262144")],                              Ok(BodyKind::Sized(262_144))),
    ("one byte more",               1, &[("Content-Length", "262145")],                              Err(Unframed::TooLarge)),
    ("ten digits",                  1, &[("Content-Length", "4294967296")],                          Err(Unframed::TooLarge)),
    ("more than 64 bits",           1, &[("Content-Length", "18446744073709551616")],                Err(Unframed::BadHead)),
    ("no digit",                    1, &[("Content-Length", "")],                                    Err(Unframed::BadHead)),
    ("a sign",                      1, &[("Content-Length", "+5")],                                  Err(Unframed::BadHead)),
    ("hexadecimal",                 1, &[("Content-Length", "0x5")],                                 Err(Unframed::BadHead)),
    ("a list of lengths",           1, &[("Content-Length", "5, 5")],                                Err(Unframed::BadHead)),
    ("the same length twice",       1, &[("Content-Length", "5"), ("Content-Length", "5")],          Err(Unframed::BadHead)),
    ("two lengths",                 1, &[("Content-Length", "5"), ("content-length", "6")],          Err(Unframed::BadHead)),
    ("chunks",                      1, &[("Transfer-Encoding", "chunked")],                          Ok(BodyKind::Chunked)),
    ("chunks, in any case",         1, &[("transfer-encoding", "Chunked")],                          Ok(BodyKind::Chunked)),
    ("chunks in 1.0",               0, &[("Transfer-Encoding", "chunked")],                          Err(Unframed::BadHead)),
    ("chunks, then a length",       1, &[("Transfer-Encoding", "chunked"), ("Content-Length", "5")], Err(Unframed::BadHead)),
    ("a length, then chunks",       1, &[("Content-Length", "5"), ("Transfer-Encoding", "chunked")], Err(Unframed::BadHead)),
    ("a length, and no coding",     1, &[("Content-Length", "5"), ("Transfer-Encoding", "")],        Err(Unframed::BadHead)),
    ("chunks twice",                1, &[("Transfer-Encoding", "chunked, chunked")],                 Err(Unframed::BadHead)),
    ("chunks in two fields",        1, &[("Transfer-Encoding", "chunked"), ("Transfer-Encoding", "chunked")], Err(Unframed::BadHead)),
    ("no coding",                   1, &[("Transfer-Encoding", "")],                                 Err(Unframed::BadHead)),
    ("another coding",              1, &[("Transfer-Encoding", "gzip")],                             Err(Unframed::OtherCoding)),
    ("another coding, in chunks",   1, &[("Transfer-Encoding", "gzip, chunked")],                    Err(Unframed::OtherCoding)),
    ("a coding that is like chunks", 1, &[("Transfer-Encoding", "xchunked")],                        Err(Unframed::OtherCoding)),
];

/// What these fields of a head say.
fn known(fields: &[(&str, &str)]) -> KnownFields {
    let mut known = KnownFields::new();
    for (name, value) in fields {
        known.add(name.as_bytes(), value.as_bytes());
    }
    known
}

#[test]
fn one_field_frames_a_body(rt: HostRuntime) {
    for (case, minor, fields, expected) in FRAMINGS {
        let framed = body_kind(b"POST", minor, &known(fields));
        assert!(rt; framed == expected, "{case}");
    }
}

/// The name and value of a field.
type Field = (&'static str, &'static str);

// what frames a body: nothing, a length, or chunks
const NONE: Field = ("Host", "d");

const FIVE: Field = ("Content-Length", "5");

const CHUNKS: Field = ("Transfer-Encoding", "chunked");

// bodies, with what comes after them, and what they stand for
#[rattlefmt::skip]
const BODIES: [(&str, Field, &[u8], Expected<'_>); 15] = [
    ("nothing",                   NONE,   b"",                                        Expected::Body(b"", b"")),
    ("nothing, then a request",   NONE,   b"GET /",                                   Expected::Body(b"", b"GET /")),
    ("five bytes",                FIVE,   b"hello",                                   Expected::Body(b"hello", b"")),
    ("five bytes, then a request", FIVE,   b"helloGET /",                             Expected::Body(b"hello", b"GET /")),
    ("a request of five bytes",   FIVE,   b"GET / HTTP/1.1",                          Expected::Body(b"GET /", b" HTTP/1.1")),
    ("no chunk",                  CHUNKS, b"0\r\n\r\n",                               Expected::Body(b"", b"")),
    ("one chunk",                 CHUNKS, b"5\r\nhello\r\n0\r\n\r\n",                 Expected::Body(b"hello", b"")),
    ("a late chunk",              CHUNKS, b"5\r\nhello\r\n1\r\n,\r\n6\r\n world\r\n0\r\n\r\nGET /", Expected::Body(b"hello, world", b"GET /")),
    ("letters of both cases",     CHUNKS, b"A\r\n0123456789\r\n0b\r\n0123456789x\r\n000\r\n\r\n", Expected::Body(b"01234567890123456789x", b"")),
    ("line ends in a chunk",      CHUNKS, b"7\r\n\r\n0\r\n\r\n\r\n0\r\n\r\n",         Expected::Body(b"\r\n0\r\n\r\n", b"")),
    ("extensions",                CHUNKS, b"5;a=b;c=\"d\"\r\nhello\r\n0;e\r\n\r\n",   Expected::Body(b"hello", b"")),
    ("trailer fields",            CHUNKS, b"5\r\nhello\r\n0\r\nDesk-Agent: eve\r\nContent-Length: 9\r\n\r\nGET /", Expected::Body(b"hello", b"GET /")),
    ("a request in a chunk",      CHUNKS, b"1b\r\nGET / HTTP/1.1\r\nhost: x\r\n\r\n\r\n0\r\n\r\n", Expected::Body(b"GET / HTTP/1.1\r\nhost: x\r\n\r\n", b"")),
    ("a request after chunks",    CHUNKS, b"1\r\n{\r\n0\r\n\r\nGET / HTTP/1.1\r\nhost: x\r\n\r\n", Expected::Body(b"{", b"GET / HTTP/1.1\r\nhost: x\r\n\r\n")),
    ("a length of many digits",   CHUNKS, b"0000000000000000000000001\r\nx\r\n0\r\n\r\n", Expected::Body(b"x", b"")),
];

// what is cut off, or begins no body
#[rattlefmt::skip]
const OTHERS: [(&str, Field, &[u8], Expected<'_>); 20] = [
    ("four bytes of five",          FIVE,   b"hell",                              Expected::Part),
    ("a size line",                 CHUNKS, b"5",                                 Expected::Part),
    ("a part of a chunk",           CHUNKS, b"5\r\nhel",                          Expected::Part),
    ("a chunk without the last",    CHUNKS, b"5\r\nhello\r\n",                    Expected::Part),
    ("no empty line at the end",    CHUNKS, b"5\r\nhello\r\n0\r\n",               Expected::Part),
    ("trailer fields, not ended",   CHUNKS, b"0\r\nX: y\r\n",                     Expected::Part),
    ("no size",                     CHUNKS, b"\r\nhello",                         Expected::Fault(BodyFault::Malformed)),
    ("a size of other letters",     CHUNKS, b"g\r\nhello",                        Expected::Fault(BodyFault::Malformed)),
    ("a sign",                      CHUNKS, b"-5\r\nhello",                       Expected::Fault(BodyFault::Malformed)),
    ("a blank before the size",     CHUNKS, b" 5\r\nhello",                       Expected::Fault(BodyFault::Malformed)),
    ("a prefix before the size",    CHUNKS, b"0x5\r\nhello",                      Expected::Fault(BodyFault::Malformed)),
    ("two sizes",                   CHUNKS, b"5 5\r\nhello",                      Expected::Fault(BodyFault::Malformed)),
    ("a size line with LF alone",   CHUNKS, b"5\nhello\n0\n\n",                   Expected::Fault(BodyFault::Malformed)),
    ("a chunk with LF alone",       CHUNKS, b"5\r\nhello\n0\r\n\r\n",             Expected::Fault(BodyFault::Malformed)),
    ("a chunk longer than its size", CHUNKS, b"5\r\nhello!\r\n0\r\n\r\n",          Expected::Fault(BodyFault::Malformed)),
    ("more than 64 bits",           CHUNKS, b"10000000000000000\r\n",             Expected::Fault(BodyFault::Malformed)),
    ("a control byte in an extension", CHUNKS, b"5;a\x00\r\nhello",                Expected::Fault(BodyFault::Malformed)),
    ("LF in an extension",          CHUNKS, b"5;a\nhello",                        Expected::Fault(BodyFault::Malformed)),
    ("a request as a trailer",      CHUNKS, b"0\r\nGET / HTTP/1.1\r\n\r\n",       Expected::Fault(BodyFault::Malformed)),
    ("a trailer with LF alone",     CHUNKS, b"0\r\nX: y\n\n",                     Expected::Fault(BodyFault::Malformed)),
];

/// Stops the test where something else is read of this row, whole, byte by byte, or in two parts, cut anywhere. The only fault is out
/// of memory.
fn is_read(
    rt: &impl Abort,
    alloc: Global,
    row: (&str, Field, &[u8], Expected<'_>),
) -> Result<(), AllocError> {
    let (case, field, input, expected) = row;
    let whole = Reading::of(rt, alloc, field, &[input]).is(expected)?;
    assert!(rt; whole, "{case}, whole");
    let mut bytes = Reading::begin(rt, alloc, field);
    for byte in input {
        bytes.take(&[*byte]);
    }
    let by_bytes = bytes.is(expected)?;
    assert!(rt; by_bytes, "{case}, byte by byte");
    for cut in 0..input.len() {
        let (front, rest) = input.split_at(cut);
        let in_parts = Reading::of(rt, alloc, field, &[front, rest]).is(expected)?;
        assert!(rt; in_parts, "{case}, cut at {cut}");
    }
    Ok(())
}

#[test]
fn a_body_is_the_same_however_it_is_cut(rt: HostRuntime) -> Result<(), Fail> {
    for row in BODIES {
        is_read(&rt, rt.alloc(), row)?;
    }
    Ok(())
}

#[test]
fn what_is_no_body_is_refused_however_it_is_cut(rt: HostRuntime) -> Result<(), Fail> {
    for row in OTHERS {
        is_read(&rt, rt.alloc(), row)?;
    }
    Ok(())
}

/// A chunk of 4,096 bytes.
fn chunk(alloc: Global) -> Result<Vec<u8>, AllocError> {
    let mut text = Vec::new(alloc);
    text.extend_from_slice(b"1000\r\n")?;
    for _ in 0..4_096u16 {
        text.push(b'x')?;
    }
    text.extend_from_slice(b"\r\n")?;
    Ok(text)
}

// 64 chunks of 4,096 bytes are 262,144: what comes after them
#[rattlefmt::skip]
const LIMITS: [(&str, &[u8], bool); 3] = [
    ("the largest body",     b"0\r\n\r\n",            true),
    ("one byte more",        b"1\r\nx\r\n0\r\n\r\n",  false),
    ("a large chunk more",   b"fffffff\r\nx",         false),
];

#[test]
fn a_body_in_chunks_has_at_most_as_many_bytes(rt: HostRuntime) -> Result<(), Fail> {
    let text = chunk(rt.alloc())?;
    for (case, end, fits) in LIMITS {
        let mut reading = Reading::begin(&rt, rt.alloc(), CHUNKS);
        for _ in 0..64u8 {
            reading.take(&text);
        }
        reading.take(end);
        let expected = if fits {
            Expected::Long(262_144)
        } else {
            Expected::Fault(BodyFault::TooLarge)
        };
        let is = reading.is(expected)?;
        assert!(rt; is, "{case}");
    }
    Ok(())
}
