//! Who sends a request, with its target and body, and the demand of the request on the desk.

ghost use Rattle.std.specs.Prelude.{◌≡◌, List, ℕ, IfOk, Ok, codes};
ghost use Rattle.http_messages.specs.Requests.{IsRequest};
ghost use Rattle.http_messages.specs.Heads.{Parts, is_method};
ghost use Rattle.http_pages.specs.Admitting.{plain};
ghost use Rattle.desk_http.specs.Demands.{admitted_of_house, agents_demand, asked_by_nobody, asked_of_house, asked_report, asks_for_metrics, asks_for_page, asks_to_stop, demand_of, demanded, house_demand, page_demand, report_demand, carried, text_of};
ghost use Rattle.desk_http.specs.DemandValues.{Demands, denied_by, sender_said};
ghost use Rattle.desk_http.specs.declared.demands.Unmet.TheVariants.{Memory, Refused};
ghost use Rattle.commands.specs.Orders.{request_of};
ghost use Rattle.report_words.specs.Targets.{asks_for_report, report_asked};

use crate::doors::{Asker, Door, Site};
use crate::showing::{bare, begin, load};
use commands::{Ask, Command, Key, Refusal};
use http_messages::Request;
use http_pages::{Denied, HtmlPage, Paths, Route, Verb, admit};
use report_words::{asks_for_report, report_asked};
use saga_core::{CellFilter, Report};
use std::alloc::{AllocError, Global};

/// The demand of a request with which nothing is wrong.
#[derive(Drop)]
pub(crate) enum Demand {
    /// Execute this command, under an agent and a key, or for the house.
    Carry(Command, Option<Ask>),
    /// Show who asks the journey of this number.
    SeeJourney(Asker, u64),
    /// Show who asks the plan of the journey of this number.
    SeePlan(Asker, u64),
    /// Show who asks why the journey of this number goes on or does not.
    SeeWhy(Asker, u64),
    /// Show who asks the journey that it began under this key.
    SeeBegun(Asker, Key),
    /// Show who asks its unfinished journeys.
    SeeUnfinished(Asker),
    /// Show who asks its own journeys above this number.
    SeeMine(Asker, u64),
    /// Show the stock.
    SeeStock,
    /// Show the cells of the stock that this filter lets through.
    SeeCells(CellFilter),
    /// Show how many events and journeys there are.
    SeeHealth,
    /// Show what a monitor reads.
    SeeMetrics,
    /// Show who asks.
    SeeAgent(Asker),
    /// Show the page for browsers.
    SeePage(HtmlPage),
    /// Show a report, to the house.
    SeeReport(Report),
    /// Stop the desk.
    Stop,
}

/// Why a request has no demand.
#[derive(Clone, Copy, Debug, PartialEq, Eq)]
pub(crate) enum Unmet {
    /// Something is wrong with the request.
    Refused(Denied),
    /// Out of memory.
    Memory,
}

impl From<Denied> for Unmet {
    ghost from_gives = { λ denied unmet. unmet ≡ Refused denied };

    fn from(denied: Denied) -> Unmet {
        Unmet::Refused(denied)
    }
}

impl From<Refusal> for Unmet {
    ghost from_gives = { λ refusal unmet. unmet ≡ Refused (plain refusal) };

    fn from(refusal: Refusal) -> Unmet {
        Unmet::Refused(Denied::from(refusal))
    }
}

impl From<AllocError> for Unmet {
    ghost from_gives = { λ _ unmet. unmet ≡ Memory };

    fn from(_error: AllocError) -> Unmet {
        Unmet::Memory
    }
}

/// The demand of a request at a door, or the first thing that is wrong with it. At the administrator's socket a request that names
/// nobody is the house's; at that with a page one for the page gets it.
pub(crate) fn demand_in(
    alloc: Global,
    paths: &Paths,
    door: Door,
    request: &Request,
) -> Result<Demand, Unmet>
    ensures demand { (parts : Parts) → (body : List ℕ) → IsRequest request.now parts body →
        Demands (demand_of door parts body) result }
{
    match door {
        Door::Port => agents_demand(alloc, paths, request),
        Door::House => demand_at_house(alloc, paths, request),
        Door::Page(site) => demand_at_page(alloc, paths, site, request),
    }
}

/// The demand of a request at the administrator's socket.
fn demand_at_house(alloc: Global, paths: &Paths, request: &Request) -> Result<Demand, Unmet>
    ensures demand { (parts : Parts) → (body : List ℕ) → IsRequest request.now parts body →
        Demands (demand_of Door.House parts body) result }
{
    if request.is_unnamed {
        house_demand(alloc, paths, request)
    } else {
        agents_demand(alloc, paths, request)
    }
}

/// The demand of a request at the door with a page.
fn demand_at_page(
    alloc: Global,
    paths: &Paths,
    site: Site,
    request: &Request,
) -> Result<Demand, Unmet>
    ensures demand { (parts : Parts) → (body : List ℕ) → IsRequest request.now parts body →
        Demands (demand_of (Door.Page site) parts body) result }
{
    if asks_for_page(request) {
        page_demand(site.page, request)
    } else {
        agents_demand(alloc, paths, request)
    }
}

/// Whether the target of a request is that of the page.
fn asks_for_page(request: &Request) -> bool
    ensures page { (parts : Parts) → (body : List ℕ) → IsRequest request.now parts body →
        result ≡ asks_for_page parts }
{
    request.target.as_slice() == b"/".as_slice()
}

/// The demand of a request for the page, or that its method is another.
fn page_demand(page: HtmlPage, request: &Request) -> Result<Demand, Unmet>
    ensures demand { (parts : Parts) → (body : List ℕ) → IsRequest request.now parts body →
        Demands (page_demand page parts) result }
{
    if request.method.as_slice() == b"GET".as_slice() {
        return Ok(Demand::SeePage(page));
    }
    Err(Unmet::from(Denied {
        refusal: Refusal::WrongMethod,
        allow: Some(Verb::Get),
    }))
}

/// The demand of a request of the house, or the first thing that is wrong with it.
fn house_demand(alloc: Global, paths: &Paths, request: &Request) -> Result<Demand, Unmet>
    ensures demand { (parts : Parts) → (body : List ℕ) → IsRequest request.now parts body →
        Demands (house_demand parts body) result }
{
    if asks_to_stop(request) {
        return Ok(Demand::Stop);
    }
    if asks_for_metrics(request) {
        return Ok(Demand::SeeMetrics);
    }
    if is_for_report(request) {
        return report_demand(alloc, request);
    }
    asked_of_house(alloc, paths, request)
}

/// Whether a request asks for a report, whichever it is.
fn is_for_report(request: &Request) -> bool
    ensures report { (parts : Parts) → (body : List ℕ) → IsRequest request.now parts body →
        result ≡ asks_for_report parts.target }
{
    asks_for_report(&request.target)
}

/// The demand of a request of the house for a report, or that its method is another.
fn report_demand(alloc: Global, request: &Request) -> Result<Demand, Unmet>
    ensures demand { (parts : Parts) → (body : List ℕ) → IsRequest request.now parts body →
        Demands (report_demand parts) result }
{
    if is_get(request) {
        return asked_report(alloc, request);
    }
    Err(Unmet::from(Denied {
        refusal: Refusal::WrongMethod,
        allow: Some(Verb::Get),
    }))
}

/// Whether the method of a request is GET.
fn is_get(request: &Request) -> bool
    ensures get { (parts : Parts) → (body : List ℕ) → IsRequest request.now parts body →
        result ≡ is_method (codes "GET") parts }
{
    request.method.as_slice() == b"GET".as_slice()
}

/// The demand of a request for the report that its target asks for, or that it asks for none.
fn asked_report(alloc: Global, request: &Request) -> Result<Demand, Unmet>
    ensures demand { (parts : Parts) → (body : List ℕ) → IsRequest request.now parts body →
        Demands (asked_report (report_asked parts.target)) result }
{
    let found = report_asked(alloc, &request.target)?;
    match found {
        Some(report) => Ok(Demand::SeeReport(report)),
        None => Err(Unmet::from(Refusal::BadBody)),
    }
}

/// What the house asks for by a request for something that agents ask for too, or the first thing that is wrong with it, in this
/// order: path, method, the parts of the path, the body.
fn asked_of_house(alloc: Global, paths: &Paths, request: &Request) -> Result<Demand, Unmet>
    ensures demand { (parts : Parts) → (body : List ℕ) → IsRequest request.now parts body →
        Demands (asked_of_house (admitted_of_house parts) parts body) result }
{
    let found = paths.route(&request.method, &request.target);
    let is_post = request.method.as_slice() == b"POST".as_slice();
    let route = admit(found, true, true, is_post)?;
    let sender = Sender {
        asker: Asker::House,
        key: request.key,
        target: &request.target,
        body: &request.body,
    };
    demand_by(alloc, route, &sender)
}

/// Whether a request asks for what a monitor reads.
fn asks_for_metrics(request: &Request) -> bool
    ensures metrics { (parts : Parts) → (body : List ℕ) → IsRequest request.now parts body →
        result ≡ asks_for_metrics parts }
{
    request.method.as_slice() == b"GET".as_slice()
        && request.target.as_slice() == b"/metrics".as_slice()
}

/// Whether a request asks the desk to stop.
pub(crate) fn asks_to_stop(request: &Request) -> bool
    ensures stop { (parts : Parts) → (body : List ℕ) → IsRequest request.now parts body →
        result ≡ asks_to_stop parts }
{
    request.method.as_slice() == b"POST".as_slice()
        && request.target.as_slice() == b"/stop".as_slice()
}

/// The demand of an agent's request, or the first thing that is wrong with it, in this order: path, method, agent, key,
/// the parts of the path, the body.
fn agents_demand(alloc: Global, paths: &Paths, request: &Request) -> Result<Demand, Unmet>
    ensures demand { (parts : Parts) → (body : List ℕ) → IsRequest request.now parts body →
        Demands (agents_demand parts body) result }
{
    let found = paths.route(&request.method, &request.target);
    let (has_agent, has_key) = (request.agent.is_some(), request.key.is_some());
    let is_post = request.method.as_slice() == b"POST".as_slice();
    let route = admit(found, has_agent, has_key, is_post)?;
    let Some(agent) = request.agent else {
        return nobodys_demand(route);
    };
    let sender = Sender {
        asker: Asker::Agent(agent),
        key: request.key,
        target: &request.target,
        body: &request.body,
    };
    demand_by(alloc, route, &sender)
}

/// The demand of a request without an agent on a route.
fn nobodys_demand(route: Route) -> Result<Demand, Unmet>
    ensures demand { Demands (asked_by_nobody route) result }
{
    match route {
        Route::ShowHealth => Ok(Demand::SeeHealth),
        _ => Err(Unmet::from(Refusal::NoAgent)),
    }
}

/// The demand of a sender on a route.
fn demand_by(alloc: Global, route: Route, sender: &Sender<'_>) -> Result<Demand, Unmet>
    ensures demand { Demands (denied_by (demanded route (sender_said sender.now))) result }
{
    match route {
        Route::LoadBatch(name) => sender.carry(alloc, load(alloc, name, sender.body)?),
        Route::Begin => sender.carry(alloc, begin(alloc, sender.body)?),
        Route::Step(id) => sender.carry(alloc, bare(sender.body, Command::Step(id))?),
        Route::Abort(id, position) => {
            sender.carry(alloc, bare(sender.body, Command::Abort(id, position))?)
        }
        Route::Save(id) => sender.carry(alloc, bare(sender.body, Command::Save(id))?),
        Route::ShowJourney(id) => Ok(Demand::SeeJourney(sender.asker, id)),
        Route::ShowPlan(id) => Ok(Demand::SeePlan(sender.asker, id)),
        Route::ShowWhy(id) => Ok(Demand::SeeWhy(sender.asker, id)),
        Route::ShowBegun(key) => Ok(Demand::SeeBegun(sender.asker, key)),
        Route::ShowUnfinished => Ok(Demand::SeeUnfinished(sender.asker)),
        Route::ShowStock => Ok(Demand::SeeStock),
        Route::ShowCells(filter) => Ok(Demand::SeeCells(filter)),
        Route::ShowMine(after) => Ok(Demand::SeeMine(sender.asker, after)),
        Route::ShowHealth => Ok(Demand::SeeHealth),
        Route::ShowAgent => Ok(Demand::SeeAgent(sender.asker)),
    }
}

/// Who sends a request, its key, its target and its body.
#[derive(Clone, Copy)]
pub(crate) struct Sender<'a> {
    pub(crate) asker: Asker,
    pub(crate) key: Option<Key>,
    pub(crate) target: &'a [u8],
    pub(crate) body: &'a [u8],
}

impl Sender<'_> {
    /// The demand to execute a command: of an agent under its key, without which the request is refused; of the house
    /// without one.
    pub(crate) fn carry(&self, alloc: Global, command: Command) -> Result<Demand, Unmet>
        ensures carry { Demands
            (denied_by (carried (sender_said self.now) (Ok (request_of command)))) result }
    {
        let Asker::Agent(agent) = self.asker else {
            return Ok(Demand::Carry(command, None));
        };
        let Some(key) = self.key else {
            return Err(Unmet::from(Refusal::NoKey));
        };
        let text = self.text(alloc)?;
        Ok(Demand::Carry(command, Some(Ask::new(agent, key, text))))
    }

    /// The text under which a reply is kept: the target, a line feed and the body. The only fault is out of memory.
    fn text(&self, alloc: Global) -> Result<Vec<u8>, AllocError>
        ensures text { IfOk result (λ text. text.items ≡ text_of (sender_said self.now)) }
    {
        let mut text = Vec::with_capacity(alloc, self.target.len())?;
        text.extend_from_slice(self.target)?;
        text.push(b'\n')?;
        text.extend_from_slice(self.body)?;
        Ok(text)
    }
}
