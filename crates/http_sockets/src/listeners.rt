//! The listeners: a port of 127.0.0.1, and perhaps the path of a Unix socket.
ghost use Rattle.std.specs.Prelude.{◌≡◌, false, is_some, option_map, IfOk};
ghost use Rattle.desk_http.specs.declared.doors.Door.{Door};
ghost use Rattle.http_sockets.specs.Doors.{IsDoorOf};
ghost use Rattle.http_sockets.specs.Listening.{IsPortHere};

use crate::files::listen_at;
use crate::places::{Places, Socket};
use mio::event::Source;
use mio::net::{TcpListener, UnixListener};
use mio::{Events, Interest, Registry, Token};
use std::alloc::Global;
use std::fs;
use std::io::{self, ErrorKind};
use std::net::{IpAddr, Ipv4Addr, SocketAddr};

/// The tokens of the two listeners, and of the first slot.
const PORT: usize = 0;

const PATH: usize = 1;

pub(crate) const FIRST: usize = 2;

/// The numbers of the system's errors where it has no descriptor, or no room, for one more socket.
const ENFILE: i32 = 23;

const EMFILE: i32 = 24;

const ENOBUFS: i32 = 105;

/// A listener, and whether somebody may wait at it.
#[derive(Drop)]
struct Listener<T: Drop> {
    socket: T,
    may_wait: bool,
}

/// A listener on a path.
#[derive(Drop)]
struct House<'a> {
    path: &'a str,
    listener: Listener<UnixListener>,
}

/// What a listener gives.
#[derive(Drop)]
pub(crate) enum Accepted {
    /// A connection.
    Came(Socket),
    /// A connection that could not be taken.
    Lost,
    /// Nothing now: nobody waits, or there are no descriptors or no memory for one more.
    Nobody,
}

impl Accepted {
    ghost use Rattle.http_sockets.specs.Waiting.{IsEndedBy};

    /// What an error of a listener comes to.
    fn from_error(error: &io::Error) -> Accepted
        ensures ended { IsEndedBy error.now result }
    {
        let is_later = matches!(
            error.kind(),
            ErrorKind::WouldBlock | ErrorKind::Interrupted | ErrorKind::OutOfMemory
        );
        if is_later || matches!(error.raw_os_error(), Some(ENFILE | EMFILE | ENOBUFS)) {
            Accepted::Nobody
        } else {
            Accepted::Lost
        }
    }
}

impl<T: Source + Drop> Listener<T> {
    ghost use Rattle.http_sockets.specs.Waiting.{IsTaken};

    /// A listener, of which the system reports under this token. Nobody is known to wait yet.
    fn new(registry: &Registry, token: usize, socket: T) -> io::Result<Listener<T>>
        ensures socket { IfOk result (λ listener. T.keeps socket listener.socket) }
        ensures none { IfOk result (λ listener. listener.may_wait ≡ false) }
    {
        let mut socket = socket;
        registry.register(&mut socket, Token(token), Interest::READABLE)?;
        Ok(Listener {
            socket,
            may_wait: false,
        })
    }

    /// What accepting gave here. After a connection one more may wait; where none can be taken, the next tick asks again.
    fn take(&mut self, accepted: io::Result<Socket>) -> Accepted
        ensures taken { IsTaken accepted result self.new.may_wait }
    {
        match accepted {
            Ok(socket) => {
                self.may_wait = true;
                Accepted::Came(socket)
            }
            Err(error) => {
                self.may_wait = matches!(
                    error.kind(),
                    ErrorKind::Interrupted | ErrorKind::ConnectionAborted
                );
                Accepted::from_error(&error)
            }
        }
    }
}

/// Both listeners.
#[derive(Drop)]
pub(crate) struct Listeners<'a> {
    port: Listener<TcpListener>,
    house: Option<House<'a>>,
}

impl<'a> Listeners<'a> {
    ghost use Rattle.http_sockets.specs.Places.{slots_of};
    ghost use Rattle.http_sockets.specs.Slots.{AddWaiting};
    ghost use Rattle.http_sockets.specs.Waiting.{Accepts, all_heard, heard, may_wait, none_heard, waiting_at};

    /// Listens on a port of 127.0.0.1, and on a path if there is one, which its owner alone may open. Whether it is this port,
    /// and this path, the system alone sees.
    pub(crate) fn bind(
        rt: &HostRuntime,
        alloc: Global,
        registry: &Registry,
        port: u16,
        path: Option<&'a str>,
    ) -> io::Result<Listeners<'a>>
        ensures none { IfOk result (λ listeners. waiting_at listeners ≡ none_heard (is_some path.entry)) }
        ensures path { IfOk result (λ listeners.
            option_map (λ house. house.path) listeners.house ≡ path.entry) }
    {
        let port = Listener::new(registry, PORT, TcpListener::bind(rt, address_of(port))?)?;
        let house = match path {
            Some(path) => Some(House {
                path,
                listener: Listener::new(registry, PATH, listen_at(rt, alloc, path)?)?,
            }),
            None => None,
        };
        Ok(Listeners { port, house })
    }

    /// The port that is listened on: where 0 was asked for, the system chose it, and it alone knows it.
    pub(crate) fn port(&self) -> io::Result<u16> {
        Ok(self.port.socket.local_addr()?.port())
    }

    /// Somebody may wait at the listener of this token.
    fn hear(&mut self, token: usize)
        ensures heard { waiting_at self.new ≡ heard token (waiting_at self.old) }
    {
        if token == PORT {
            self.port.may_wait = true;
        } else if let Some(house) = &mut self.house {
            house.listener.may_wait = true;
        }
    }

    /// Somebody may wait at each listener.
    pub(crate) fn hear_all(&mut self)
        ensures heard { waiting_at self.new ≡ all_heard (waiting_at self.old) }
    {
        self.hear(PORT);
        self.hear(PATH);
    }

    /// Takes in what the system reported: who may come, and which slots may go on.
    #[tactic(auto, using(crate::proofs::SlotLemmas::waiting_same, crate::proofs::SlotLemmas::waiting_both))]
    pub(crate) fn take_in(&mut self, events: &Events, places: &mut Places) -> io::Result<()>
        ensures slots { AddWaiting (slots_of places.old) (slots_of places.new) }
    {
        for event in events.iter() {
            let token = event.token().0;
            if token < FIRST {
                self.hear(token);
            } else {
                places.queue(token - FIRST)?;
            }
        }
        Ok(())
    }

    /// Whether somebody may wait.
    pub(crate) fn may_wait(&self) -> bool
        ensures waits { result ≡ may_wait (waiting_at self.now) }
    {
        let at_path = self
            .house
            .as_ref()
            .map_or(false, |house| house.listener.may_wait);
        self.port.may_wait || at_path
    }

    /// Who waits, if anybody does: at the path first, since its owner alone comes there.
    #[tactic(auto, using(crate::proofs::WaitingLemmas::comes_to))]
    pub(crate) fn accept(&mut self) -> Accepted
        ensures accepts { Accepts (waiting_at self.old) (waiting_at self.new) result }
    {
        if let Some(house) = &mut self.house {
            if house.listener.may_wait {
                let accepted = come_to_path(&house.listener.socket);
                return house.listener.take(accepted);
            }
        }
        if !self.port.may_wait {
            return Accepted::Nobody;
        }
        let accepted = come_to_port(&self.port.socket);
        self.port.take(accepted)
    }

    /// Listens no more, and removes the file of the Unix socket, which the system alone sees.
    pub(crate) fn end(self, rt: &HostRuntime) {
        if let Some(house) = &self.house {
            let _ = fs::remove_file(rt, house.path);
        }
    }
}

/// Who waits at the path.
fn come_to_path(listener: &UnixListener) -> io::Result<Socket>
    ensures house { IfOk result (λ socket. IsDoorOf socket Door.House) }
{
    let (stream, _) = listener.accept()?;
    Ok(Socket::Path(stream))
}

/// Who waits at the port. A page goes out to it at once, and does not wait for the next one.
fn come_to_port(listener: &TcpListener) -> io::Result<Socket>
    ensures port { IfOk result (λ socket. IsDoorOf socket Door.Port) }
{
    let (stream, _) = listener.accept()?;
    let _ = stream.set_nodelay(true);
    Ok(Socket::Port(stream))
}

/// The address of a port of 127.0.0.1.
fn address_of(port: u16) -> SocketAddr
    ensures here { IsPortHere port result }
{
    SocketAddr::new(IpAddr::V4(Ipv4Addr::LOCALHOST), port)
}
