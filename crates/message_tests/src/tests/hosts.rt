//! Which host a request names.
use super::filled;
use http_messages::{Message, first_message};

// the fields of a head, and the host that is read of them
#[rattlefmt::skip]
const HOSTS: [(&str, &[u8], &str); 6] = [
    ("one",                  b"Host: d\r\n",                          "d"),
    ("in any case",          b"HOST:\t127.0.0.1:8080 \r\n",           "127.0.0.1:8080"),
    ("an address of six",    b"Accept: */*\r\nhost: [::1]:8080\r\n",  "[::1]:8080"),
    ("an empty one",         b"Host:\r\n",                            ""),
    ("none",                 b"",                                     ""),
    ("two",                  b"Host: d\r\nhost: d\r\n",               ""),
];

#[test]
fn the_host_is_that_of_the_one_field(rt: HostRuntime) {
    let alloc = rt.alloc();
    for (case, fields, expected) in HOSTS {
        let head = filled(alloc, b"GET / HTTP/1.1\r\n", fields, 1, b"\r\n");
        let head = head.expect(&rt, "memory");
        match first_message(alloc, &head).expect(&rt, "memory") {
            Some((Message::Asks(request), _)) => {
                assert!(rt; request.host.as_slice() == expected.as_bytes(), "{case}");
            }
            _ => panic!(rt; "{case}"),
        }
    }
}
