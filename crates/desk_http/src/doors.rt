//! The doors at which requests come in, who asks there, and the hosts under which the page for browsers is served. A page
//! of another site, whose name was made to lead here, asks under that name, and is refused.
ghost use Rattle.commands.specs.declared.replies.Refusal.TheVariants.{BadHead};
ghost use Rattle.desk_http.specs.Hosts.{host_text, is_own_host, refusal_at};
ghost use Rattle.desk_http.specs.Pages.{owner_of, owners_for, sees};
ghost use Rattle.http_messages.specs.Heads.{Parts};
ghost use Rattle.http_messages.specs.Requests.{IsRequest};
ghost use Rattle.std.specs.Prelude.{◌≡◌, IfOk, List, ℕ, Some, bytes_eq, if◌then◌else◌};

use commands::{Agent, Refusal};
use http_messages::Request;
use http_pages::{HtmlPage, Owners};
use std::alloc::{AllocError, Global};

/// Where a request comes in.
#[derive(Clone, Copy, Debug, PartialEq, Eq)]
pub enum Door {
    /// The port. A request is that of the agent whom it names.
    Port,
    /// The door of the house alone. A request that names nobody is the house's; any other is that of its agent, as at the
    /// port.
    House,
    /// The port, where browsers get a page. A request is that of the agent whom it names, or one for the page; a head with
    /// another host is refused.
    Page(Site),
}

/// The page for browsers, and the port at which it is served.
#[derive(Clone, Copy, Debug, PartialEq, Eq)]
pub struct Site {
    /// The port that the host of each request names.
    pub port: u16,
    /// The page.
    pub page: HtmlPage,
}

/// Who asks.
#[derive(Clone, Copy)]
pub(crate) enum Asker {
    /// This agent.
    Agent(Agent),
    /// The house.
    House,
}

impl Asker {
    /// The agent whose journeys are its own.
    pub(crate) fn owner(&self) -> Agent
        ensures owner { result ≡ owner_of self.now }
    {
        match self {
            Asker::Agent(agent) => *agent,
            Asker::House => Agent::house(),
        }
    }

    /// Whether this is shown whose each journey is.
    pub(crate) fn owners(&self) -> Owners
        ensures owners { result ≡ owners_for self.now }
    {
        match self {
            Asker::Agent(_) => Owners::Hidden,
            Asker::House => Owners::Shown,
        }
    }

    /// Whether this is shown the journeys of an agent.
    pub(crate) fn sees(&self, owner: &Agent) -> bool
        ensures sees { result ≡ sees self.now owner.now }
    {
        match self {
            Asker::Agent(agent) => agent == owner,
            Asker::House => true,
        }
    }
}

/// The refusal of the head of a request that came in at a door, if it is refused. The only fault is out of memory.
pub(crate) fn refusal_at(
    alloc: Global,
    door: Door,
    request: &Request,
) -> Result<Option<Refusal>, AllocError>
    ensures refusal { IfOk result (λ refusal. (parts : Parts) → (body : List ℕ) →
        IsRequest request.now parts body → refusal ≡ refusal_at door parts) }
{
    match door {
        Door::Port => Ok(request.complaint),
        Door::House => Ok(request.complaint),
        Door::Page(site) => {
            let own = is_own_host(alloc, site.port, &request.host)?;
            Ok(refusal_of(own, request.complaint))
        }
    }
}

impl Door {
    ghost use Rattle.desk_http.specs.Hosts.{refusal_at};

    /// The refusal of the head of a request that came in here, if it is refused. The only fault is out of memory.
    pub fn refusal_of(self, alloc: Global, request: &Request) -> Result<Option<Refusal>, AllocError>
        ensures refusal { IfOk result (λ refusal. (parts : Parts) → (body : List ℕ) →
            IsRequest request.now parts body → refusal ≡ refusal_at self parts) }
    {
        refusal_at(alloc, self, request)
    }
}

/// The refusal of a head whose host is this machine, or another.
fn refusal_of(own: bool, complaint: Option<Refusal>) -> Option<Refusal>
    ensures refusal { result ≡ (if own then complaint else Some BadHead) }
{
    if own {
        complaint
    } else {
        Some(Refusal::BadHead)
    }
}

/// Whether a host is this machine with this port. The only fault is out of memory.
fn is_own_host(alloc: Global, port: u16, host: &[u8]) -> Result<bool, AllocError>
    ensures own { IfOk result (λ own. own ≡ is_own_host port host.now) }
{
    let by_number = is_host(alloc, "127.0.0.1", port, host)?;
    let by_name = is_host(alloc, "localhost", port, host)?;
    let by_long_number = is_host(alloc, "[::1]", port, host)?;
    Ok(by_number || by_name || by_long_number)
}

/// Whether a host is this name with this port. The only fault is out of memory.
fn is_host(alloc: Global, name: &str, port: u16, host: &[u8]) -> Result<bool, AllocError>
    ensures host { IfOk result (λ is_so. is_so ≡ bytes_eq host.now (host_text name.now port)) }
{
    let text = format!(in alloc; "{name}:{port}")?;
    Ok(host == text.as_bytes())
}
