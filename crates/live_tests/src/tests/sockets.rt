//! Connections of the system, several at once.
use crate::tests::plain::new_desk;
use http_live::serve_to_end;
use http_sockets::{Limits, Sockets};
use std::io::{Read, Write};
use std::net::{Ipv4Addr, TcpStream};
use std::test::Fail;

/// A request, twice, and then a part of a third one.
const ASKED: &[u8] = b"GET /unfinished HTTP/1.1\r\nHost: d\r\nDesk-Agent: ann\r\n\r\n\
    GET /unfinished HTTP/1.1\r\nHost: d\r\nDesk-Agent: ann\r\n\r\nGET /unf";

/// The page of each.
const PAGE: &[u8] =
    b"HTTP/1.1 200 OK\r\nContent-Length: 17\r\nContent-Type: application/json\r\n\r\n{\"unfinished\":[]}";

#[test]
fn clients_are_answered_beside_a_silent_one(rt: HostRuntime) -> Result<(), Fail> {
    let alloc = rt.alloc();
    let limits = Limits {
        connections: Some(3),
        patience: 3,
    };
    let mut sockets = Sockets::bind(&rt, alloc, 0, None, limits)?;
    let address = (Ipv4Addr::LOCALHOST, sockets.port()?);
    let mut silent = TcpStream::connect(&rt, address)?;
    silent.write_all(b"GET")?;
    let mut clients = [
        TcpStream::connect(&rt, address)?,
        TcpStream::connect(&rt, address)?,
    ];
    for client in &mut clients {
        client.write_all(ASKED)?;
    }
    let mut desk = new_desk(&rt, alloc);
    let ended = serve_to_end(alloc, &mut sockets, &mut desk);
    assert!(rt; ended.is_ok() && !sockets.has_failed(), "{ended:?}");
    for client in &mut clients {
        let mut pages = Vec::new(alloc);
        client.read_to_end(&mut pages)?;
        let (first, second) = pages.split_at(PAGE.len().min(pages.len()));
        assert!(rt; first == PAGE && second == PAGE);
    }
    let mut nothing = Vec::new(alloc);
    silent.read_to_end(&mut nothing)?;
    assert!(rt; nothing.is_empty());
    Ok(())
}
