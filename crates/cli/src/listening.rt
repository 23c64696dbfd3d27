//! Listening on a port of this host, and at a Unix socket.
ghost use Rattle.std.specs.Prelude.{◌≡◌, IfErr, IfOk};
ghost use Rattle.http_sockets.specs.Options.{options_of};
ghost use Rattle.program_jobs.specs.Serving.{IsUnheard};
ghost use Rattle.cli.specs.Listening.{IsForBrowsers, ServesAs, ShowsPage, logged, widened};

use crate::actions::Served;
use agents_page::{PAGE, POLICY};
use http_pages::HtmlPage;
use http_sockets::{Limits, LogForm, PATIENCE, Sockets, is_socket_at};
use program_ends::{End, Ended, ProgramFault, end_of_listening};
use std::alloc::Global;
use std::io::ErrorKind;

/// Listens on the port, and at the Unix socket if there is one.
pub(crate) fn bind<'a>(
    rt: &'a HostRuntime,
    alloc: Global,
    port: u16,
    served: Served<'a>,
) -> Result<Sockets<'a>, Ended>
    ensures serves { IfOk result (λ sockets. ServesAs served.entry (options_of sockets)) }
    ensures end { IfErr result (λ ended. IsUnheard ended.end) }
{
    let limits = Limits {
        connections: served.connections,
        patience: PATIENCE,
    };
    match Sockets::bind(rt, alloc, port, served.house, limits) {
        Ok(sockets) => equipped(sockets, served),
        Err(error) => Err(end_of_error(error.kind(), has_socket(rt, served.house))),
    }
}

/// The end for an error of listening: memory ran out, or the system refused.
fn end_of_error(error: ErrorKind, has_socket: bool) -> Ended
    ensures end { IsUnheard result.end }
{
    match error {
        ErrorKind::OutOfMemory => Ended::from(End::Fault(ProgramFault::Memory)),
        _ => end_of_listening(error, has_socket),
    }
}

/// Whether a socket stands at the path of the house, if there is one. The system alone sees it.
fn has_socket(rt: &HostRuntime, house: Option<&str>) -> bool {
    house.map_or(false, |path| is_socket_at(rt, path).unwrap_or(false))
}

/// The sockets, with the mode of reading HTTP, the log and the page that are asked for.
fn equipped<'a>(sockets: Sockets<'a>, served: Served<'_>) -> Result<Sockets<'a>, Ended>
    ensures options { IfOk result (λ equipped. ShowsPage served.entry.page
        (logged served.entry.log (widened served.entry.wide (options_of sockets.entry)))
        (options_of equipped)) }
    ensures end { IfErr result (λ ended. IsUnheard ended.end) }
{
    with_page(
        with_log(widened(sockets, served.wide), served.log),
        served.page,
    )
}

/// The sockets, which read HTTP as libraries, proxies and pools speak it if that is asked for.
fn widened(sockets: Sockets<'_>, wide: bool) -> Sockets<'_>
    ensures options { options_of result ≡ widened wide (options_of sockets.entry) }
{
    let mut sockets = sockets;
    if wide {
        sockets.widen();
    }
    sockets
}

/// The sockets, which serve the page for browsers if that is asked for.
fn with_page(sockets: Sockets<'_>, page: bool) -> Result<Sockets<'_>, Ended>
    ensures options { IfOk result (λ shown. ShowsPage page (options_of sockets.entry)
        (options_of shown)) }
    ensures end { IfErr result (λ ended. IsUnheard ended.end) }
{
    let mut sockets = sockets;
    if page && sockets.show(page_for_browsers()).is_err() {
        sockets.end();
        return Err(Ended::from(End::Fault(ProgramFault::Net)));
    }
    Ok(sockets)
}

/// The page for browsers.
fn page_for_browsers() -> HtmlPage
    ensures page { IsForBrowsers result }
{
    HtmlPage {
        text: PAGE,
        policy: POLICY,
    }
}

/// The sockets, which write the log in this form if that is asked for.
fn with_log(sockets: Sockets<'_>, log: Option<LogForm>) -> Sockets<'_>
    ensures options { options_of result ≡ logged log (options_of sockets.entry) }
{
    let mut sockets = sockets;
    if let Some(form) = log {
        sockets.log(form);
    }
    sockets
}
