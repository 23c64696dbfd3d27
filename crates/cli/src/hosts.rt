//! The surroundings of a job on this host: its files, and who comes to its sockets.
ghost use Rattle.std.specs.Prelude.{◌≡◌};

use crate::actions::served_of;
use crate::listening::bind;
use command_line::Job;
use http_sockets::{Sockets, log_opening};
use program_ends::{Ended, ProgramFault};
use program_jobs::Environment;
use std::alloc::Global;
use std::fs;
use std::io::{ErrorKind, Read};

/// This host, for one job.
#[derive(Drop)]
pub(crate) struct Host<'a> {
    rt: &'a HostRuntime,
    job: &'a Job,
    /// The sockets at which somebody was served.
    dismissed: Option<Sockets<'a>>,
}

impl<'a> Host<'a> {
    /// This host, before anybody is served.
    pub(crate) fn new(rt: &'a HostRuntime, job: &'a Job) -> Host<'a>
        ensures job { result.job.now ≡ job.now }
    {
        Host {
            rt,
            job,
            dismissed: None,
        }
    }

    /// Ends the sockets, if somebody was served, and removes the file of the Unix socket. The database is closed by then. Nothing is
    /// left of which a clause could speak.
    pub(crate) fn end(self) {
        if let Some(sockets) = self.dismissed {
            sockets.end();
        }
    }
}

impl<'a> Environment for Host<'a> {
    ghost use Rattle.http_sockets.specs.Ends.{is_failed};
    ghost use Rattle.cli.specs.Listening.{ServesJob};

    type Guests = Sockets<'a>;

    ghost listens_for = { λ host. ServesJob host.job.now };

    ghost has_failed = { is_failed };

    fn read_file(&mut self, alloc: Global, name: &str, most: u64) -> Result<Vec<u8>, ProgramFault> {
        let mut bytes = Vec::new(alloc);
        let read = match fs::open(self.rt, name) {
            Ok(file) => file.take(most).read_to_end(&mut bytes),
            Err(error) => Err(error),
        };
        match read {
            Ok(_) => Ok(bytes),
            Err(error) if error.kind() == ErrorKind::OutOfMemory => Err(ProgramFault::Memory),
            Err(_) => Err(ProgramFault::File),
        }
    }

    fn listen(&mut self, alloc: Global, port: u16, recovered: u64) -> Result<Sockets<'a>, Ended> {
        let served = served_of(self.job);
        if let Some(form) = served.log {
            log_opening(self.rt, alloc, form, recovered);
        }
        bind(self.rt, alloc, port, served)
    }

    fn dismiss(&mut self, guests: Sockets<'a>) -> bool {
        let has_failed = guests.has_failed();
        self.dismissed = Some(guests);
        has_failed
    }
}
