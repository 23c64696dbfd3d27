//! What stands at the paths of the desk, what a method and a target ask for there, and whether it may be asked.

ghost use Rattle.http_pages.specs.Admitting.{admitted, is_of_method, needs_agent, plain};
ghost use Rattle.http_pages.specs.Routes.{line_of, routes, with_line, with_lines, found_route, asked_by, route_of, piece, name_at, journey_at, key_at, after_at, position_at, night_at, kind_at, code_at, cells_at, asked};
ghost use Rattle.http_pages.specs.Verbs.{verb_text};
ghost use Rattle.matchit.specs.Seek.{first};
ghost use Rattle.std.specs.Prelude.{◌≡◌, IfOk, OnOk, is_some, IfErr, option_map, map};

use allotment::{Code, Kind, Night};
use commands::{Key, MOST_EVENTS, MOST_NAMED_POSITION, Name, Refusal, number_between};
use matchit::Router;
use saga_core::CellFilter;
use std::alloc::{AllocError, Global};
use std::str;

/// What is asked for. Journeys are named by their numbers, from 1.
#[derive(Clone, Copy, Debug, PartialEq, Eq)]
pub enum Route {
    /// Load the batch of this name, whose rows are the body.
    LoadBatch(Name),
    /// Begin a journey by the plan that is the body.
    Begin,
    /// Do the next step of a journey.
    Step(u64),
    /// Turn a journey back to a position, 0 to 99.
    Abort(u64, usize),
    /// Take a save-point where a journey is.
    Save(u64),
    /// Show a journey.
    ShowJourney(u64),
    /// Show the plan of a journey.
    ShowPlan(u64),
    /// Show why a journey goes on or does not.
    ShowWhy(u64),
    /// Show the journey that who asks began under this key.
    ShowBegun(Key),
    /// Show the journeys of the agent that are not finished.
    ShowUnfinished,
    /// Show the stock.
    ShowStock,
    /// Show the cells of the stock that this filter lets through.
    ShowCells(CellFilter),
    /// Show the journeys of who asks above this number, finished ones too.
    ShowMine(u64),
    /// Show how many events and journeys there are, to anybody.
    ShowHealth,
    /// Show which agent asks.
    ShowAgent,
}

/// Why a method and a target ask for nothing.
#[derive(Clone, Copy, Debug, PartialEq, Eq)]
pub enum Unrouted {
    /// No path of the desk is that of the target.
    UnknownPath,
    /// The path has another method, this one.
    WrongMethod(Verb),
    /// A part of the path is malformed: no batch's name, no number, no position, no key, no night, no kind or no code.
    BadPart,
}

/// A method that some path of the desk has.
#[derive(Clone, Copy, Debug, PartialEq, Eq)]
pub enum Verb {
    /// Reads something, and changes nothing.
    Get,
    /// Executes a command.
    Post,
}

impl Verb {
    /// The method, as a request line and the field `Allow` spell it.
    pub fn text(&self) -> &'static str
        ensures text { result.now ≡ verb_text self.now }
    {
        match self {
            Verb::Get => "GET",
            Verb::Post => "POST",
        }
    }
}

/// The paths of the desk, in which a target is looked up.
#[derive(Drop)]
pub struct Paths {
    router: Router<Entry>,
    ghost whole: { router ≡ routes },
}

/// Adds a path. No two paths of the desk conflict, so the only fault is out of memory.
fn add(router: &mut Router<Entry>, path: &str, verb: Verb, place: Place) -> Result<(), AllocError>
    ensures added { OnOk result
        (router.new ≡ with_line (path.now, record { verb = verb; place = place }) router.old) }
{
    match router.insert(path, Entry { verb, place }) {
        Ok(()) => Ok(()),
        Err(_) => Err(AllocError),
    }
}

/// Adds the paths of these lines, one after another.
fn add_all(router: &mut Router<Entry>, lines: &[(&str, Verb, Place)]) -> Result<(), AllocError>
    ensures added { OnOk result (router.new ≡ with_lines router.old (map line_of lines.now)) }
{
    for line in lines {
        add(router, line.0, line.1, line.2)?;
    }
    Ok(())
}

/// The paths of the desk: each with the one method that it has, and what stands there. What stands in braces matches one
/// piece between slashes.
#[rattlefmt::skip]
static LINES: [(&str, Verb, Place); 19] = [
    ("/batches/{name}", Verb::Post, Place::Batch),
    ("/journeys", Verb::Post, Place::Journeys),
    ("/journeys/{id}/step", Verb::Post, Place::Step),
    ("/journeys/{id}/abort/{p}", Verb::Post, Place::Abort),
    ("/journeys/{id}/save", Verb::Post, Place::Save),
    ("/journeys/{id}", Verb::Get, Place::Journey),
    ("/journeys/{id}/plan", Verb::Get, Place::Plan),
    ("/journeys/{id}/why", Verb::Get, Place::Why),
    ("/journeys/by-key/{key}", Verb::Get, Place::Begun),
    ("/unfinished", Verb::Get, Place::Unfinished),
    ("/stock", Verb::Get, Place::Stock),
    ("/stock/{from}/{to}", Verb::Get, Place::Cells),
    ("/stock/{from}/{to}/{kind}", Verb::Get, Place::Cells),
    ("/stock/{from}/{to}/{kind}/{supplier}", Verb::Get, Place::Cells),
    ("/stock/{from}/{to}/{kind}/{supplier}/{product}", Verb::Get, Place::Cells),
    ("/mine", Verb::Get, Place::Mine),
    ("/mine/{after}", Verb::Get, Place::MineAfter),
    ("/health", Verb::Get, Place::Health),
    ("/agent", Verb::Get, Place::Agent),
];

impl Paths {
    /// All paths of the desk. The only fault is out of memory.
    pub fn new(alloc: Global) -> Result<Paths, AllocError> {
        let mut router = Router::new(alloc);
        add_all(&mut router, &LINES)?;
        Ok(Paths { router })
    }

    /// Looks up what a method and a target ask for. The target is compared as it was sent, query and all (RFC 9112,
    /// section 3.2.1). Reports an unknown path first, then another method, then a malformed part.
    pub fn route(&self, method: &[u8], target: &[u8]) -> Result<Route, Unrouted>
        ensures route { result ≡ route_of method.now target.now }
    {
        match str::from_utf8(target) {
            Ok(target) => self.route_of_text(method, target),
            Err(_) => Err(Unrouted::UnknownPath),
        }
    }

    /// Looks up what they ask for, if the target is UTF-8.
    fn route_of_text(&self, method: &[u8], target: &str) -> Result<Route, Unrouted>
        ensures route { result ≡ found_route method.now target.now (first routes target.now) }
    {
        match self.router.at(target) {
            Ok(found) => asked_by(method, target, *found.value),
            Err(_) => Err(Unrouted::UnknownPath),
        }
    }
}

/// What a method asks for at a path that was found, or that the path has another method, or that a part is malformed.
fn asked_by(method: &[u8], target: &str, entry: Entry) -> Result<Route, Unrouted>
    ensures route { result ≡ asked_by method.now target.now entry }
{
    if method != entry.verb.text().as_bytes() {
        return Err(Unrouted::WrongMethod(entry.verb));
    }
    match entry.place.asked(target) {
        Some(route) => Ok(route),
        None => Err(Unrouted::BadPart),
    }
}

/// A refusal, and for a wrong method the one that the path has.
#[derive(Clone, Copy, Debug, PartialEq, Eq)]
pub struct Denied {
    pub refusal: Refusal,
    /// The method for the field `Allow`.
    pub allow: Option<Verb>,
}

/// A refusal without a method for `Allow`.
impl From<Refusal> for Denied {
    ghost from_gives = { λ refusal denied. denied ≡ plain refusal };

    fn from(refusal: Refusal) -> Denied {
        Denied {
            refusal,
            allow: None,
        }
    }
}

/// Whether who asks must be an agent. Anybody may ask how many events and journeys there are.
fn needs_agent(found: &Result<Route, Unrouted>) -> bool
    ensures needs { result ≡ needs_agent found.now }
{
    !matches!(found, Ok(Route::ShowHealth))
}

/// Returns what is asked for, or the first thing that is wrong: the path, its method, the agent, the key of a POST, the
/// parts of the path. A request for how many events and journeys there are needs no agent.
pub fn admit(
    found: Result<Route, Unrouted>,
    has_agent: bool,
    has_key: bool,
    is_post: bool,
) -> Result<Route, Denied>
    ensures admitted { result ≡ admitted found has_agent has_key is_post }
    ensures allow { IfErr result (λ denied. is_some denied.allow ≡ is_of_method denied.refusal) }
{
    let needs_agent = needs_agent(&found);
    match found {
        Err(Unrouted::UnknownPath) => Err(Denied::from(Refusal::UnknownPath)),
        Err(Unrouted::WrongMethod(verb)) => Err(Denied {
            refusal: Refusal::WrongMethod,
            allow: Some(verb),
        }),
        _ if needs_agent && !has_agent => Err(Denied::from(Refusal::NoAgent)),
        _ if is_post && !has_key => Err(Denied::from(Refusal::NoKey)),
        Err(Unrouted::BadPart) => Err(Denied::from(Refusal::BadBody)),
        Ok(route) => Ok(route),
    }
}

/// The piece of a target that holds a batch's name, a journey's number, one above which journeys are asked for, or the first
/// night.
const FIRST_PART: usize = 2;

/// The piece of a target that holds a position.
const SECOND_PART: usize = 4;

/// The piece of a target that holds a key.
const KEY_PART: usize = 3;

/// The piece of a target that holds the last night.
const TO_PART: usize = 3;

/// The piece of a target that holds a kind.
const KIND_PART: usize = 4;

/// The piece of a target that holds a supplier.
const SUPPLIER_PART: usize = 5;

/// The piece of a target that holds a product.
const PRODUCT_PART: usize = 6;

/// What stands at a path.
#[derive(Clone, Copy, Debug, PartialEq, Eq)]
pub enum Place {
    /// A batch, by its name.
    Batch,
    /// All journeys.
    Journeys,
    /// The next step of a journey.
    Step,
    /// The turn of a journey to a position.
    Abort,
    /// A save-point of a journey, where it is.
    Save,
    /// A journey.
    Journey,
    /// The plan of a journey.
    Plan,
    /// Why a journey goes on or does not.
    Why,
    /// The journey that was begun under a key.
    Begun,
    /// The journeys that are not finished.
    Unfinished,
    /// The stock.
    Stock,
    /// Cells of the stock.
    Cells,
    /// The journeys of who asks.
    Mine,
    /// The journeys of who asks above a number.
    MineAfter,
    /// How many events and journeys there are.
    Health,
    /// The agent who asks.
    Agent,
}

/// The one method that a path has, and what stands there.
#[derive(Clone, Copy, Debug, PartialEq, Eq)]
pub struct Entry {
    pub verb: Verb,
    pub place: Place,
}

impl Place {
    /// What is asked for here, if the parts of the target are well formed.
    pub fn asked(self, target: &str) -> Option<Route>
        ensures asked { result ≡ asked self target.now }
    {
        match self {
            Place::Batch => name_at(target).map(Route::LoadBatch),
            Place::Journeys => Some(Route::Begin),
            Place::Step => journey_at(target).map(Route::Step),
            Place::Abort => Some(Route::Abort(journey_at(target)?, position_at(target)?)),
            Place::Save => journey_at(target).map(Route::Save),
            Place::Journey => journey_at(target).map(Route::ShowJourney),
            Place::Plan => journey_at(target).map(Route::ShowPlan),
            Place::Why => journey_at(target).map(Route::ShowWhy),
            Place::Begun => key_at(target).map(Route::ShowBegun),
            Place::Unfinished => Some(Route::ShowUnfinished),
            Place::Stock => Some(Route::ShowStock),
            Place::Cells => cells_at(target).map(Route::ShowCells),
            Place::Mine => Some(Route::ShowMine(0)),
            Place::MineAfter => after_at(target).map(Route::ShowMine),
            Place::Health => Some(Route::ShowHealth),
            Place::Agent => Some(Route::ShowAgent),
        }
    }
}

/// The name of a batch that the target has.
fn name_at(target: &str) -> Option<Name>
    ensures name { result ≡ name_at target.now }
{
    Name::parse(piece(target, FIRST_PART)?)
}

/// The journey that the target has.
fn journey_at(target: &str) -> Option<u64>
    ensures journey { result ≡ journey_at target.now }
{
    let id = number_between(piece(target, FIRST_PART)?, 1, MOST_EVENTS as usize)?;
    Some(id as u64)
}

/// The key that the target has.
fn key_at(target: &str) -> Option<Key>
    ensures key { result ≡ key_at target.now }
{
    Key::parse(piece(target, KEY_PART)?)
}

/// The number that the target has, above which journeys are asked for.
fn after_at(target: &str) -> Option<u64>
    ensures after { result ≡ after_at target.now }
{
    let after = number_between(piece(target, FIRST_PART)?, 0, MOST_EVENTS as usize)?;
    Some(after as u64)
}

/// The position that the target has.
fn position_at(target: &str) -> Option<usize>
    ensures position { result ≡ position_at target.now }
{
    number_between(piece(target, SECOND_PART)?, 0, MOST_NAMED_POSITION)
}

/// The cells that the target asks for.
fn cells_at(target: &str) -> Option<CellFilter>
    ensures cells { result ≡ cells_at target.now }
{
    let from = night_at(target, FIRST_PART)?;
    let to = night_at(target, TO_PART)?;
    Some(CellFilter {
        kind: kind_at(target)?,
        supplier: code_at(target, SUPPLIER_PART)?,
        product: code_at(target, PRODUCT_PART)?,
        from: Some(from),
        to: Some(to),
    })
}

/// The night that the target has at this place.
fn night_at(target: &str, place: usize) -> Option<Night>
    ensures night { result ≡ night_at target.now place }
{
    Night::parse(piece(target, place)?).ok()
}

/// The kind that the target names, if it names one. Returns `None` for a piece that is no kind.
fn kind_at(target: &str) -> Option<Option<Kind>>
    ensures kind { result ≡ kind_at target.now }
{
    match piece(target, KIND_PART) {
        Some(word) => Kind::from_word(word).map(Some),
        None => Some(None),
    }
}

/// The supplier or the product that the target names at this place, if it names one. Returns `None` for a piece that is no
/// code.
fn code_at(target: &str, place: usize) -> Option<Option<Code>>
    ensures code { result ≡ code_at target.now place }
{
    match piece(target, place) {
        Some(text) => Code::parse(text).map(Some),
        None => Some(None),
    }
}

/// The piece of the target at this place, counted from 0, between its slashes.
fn piece(target: &str, place: usize) -> Option<&str>
    ensures piece { option_map (λ found. found.now) result ≡ piece target.now place }
{
    target.split('/').nth(place)
}
