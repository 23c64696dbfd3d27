//! A connection of the system.
use crate::tests::desks::{holds, new_desk, reads};
use crate::tests::orders::{GET, NOTHING_UNFINISHED};
use crate::tests::talks::Talk;
use http_conversations::serve;
use std::io::{Read, Write};
use std::net::{Shutdown, TcpListener, TcpStream};
use std::test::Fail;

#[test]
fn a_client_reads_its_page(rt: HostRuntime) -> Result<(), Fail> {
    let alloc = rt.alloc();
    let mut talk = Talk::new(alloc);
    talk.send(&rt, GET);
    talk.page(&rt, alloc, NOTHING_UNFINISHED);
    let listener = TcpListener::bind(&rt, "127.0.0.1:0")?;
    let mut client = TcpStream::connect(&rt, listener.local_addr()?)?;
    client.write_all(&talk.sent)?;
    client.shutdown(Shutdown::Write)?;

    let (stream, _) = listener.accept()?;
    let mut desk = new_desk(&rt, alloc);
    let served = serve(alloc, &mut &stream, &mut &stream, &mut desk)?;
    drop(stream);
    let mut page = Vec::new(alloc);
    client.read_to_end(&mut page)?;
    reads(&rt, "the page", &page, &talk.told);
    holds(&rt, "one page", served.pages == 1);
    Ok(())
}
