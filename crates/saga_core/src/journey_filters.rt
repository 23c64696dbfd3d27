//! Which journeys are asked for.
ghost use Rattle.std.specs.Prelude.{◌≡◌};
ghost use Rattle.saga_core.specs.JourneyFilters.{is_in_state, is_journey_asked, is_phase_asked, state_named, state_word};
ghost use Rattle.saga_core.specs.CellFilters.{is_name_asked};

use crate::records::Brief;
use commands::{Agent, Phase};

/// What a journey does, without its target.
#[derive(Clone, Copy, Debug, PartialEq, Eq)]
pub enum JourneyState {
    /// It goes forward.
    Run,
    /// It goes back.
    Back,
    /// All its steps are done.
    Ended,
    /// All its steps are compensated.
    Undone,
}

impl JourneyState {
    /// The state with this word: `run`, `back`, `ended` or `undone`. Returns `None` for any other text.
    pub fn from_word(text: &str) -> Option<JourneyState>
        ensures named { result ≡ state_named text.now }
    {
        match text {
            "run" => Some(JourneyState::Run),
            "back" => Some(JourneyState::Back),
            "ended" => Some(JourneyState::Ended),
            "undone" => Some(JourneyState::Undone),
            _ => None,
        }
    }

    /// Its word.
    pub fn word(self) -> &'static str
        ensures word { result.now ≡ state_word self }
    {
        match self {
            JourneyState::Run => "run",
            JourneyState::Back => "back",
            JourneyState::Ended => "ended",
            JourneyState::Undone => "undone",
        }
    }

    /// Whether a journey in this phase is in this state.
    pub fn has(self, phase: Phase) -> bool
        ensures state { result ≡ is_in_state self phase }
    {
        match self {
            JourneyState::Run => matches!(phase, Phase::Run),
            JourneyState::Back => matches!(phase, Phase::Back(_)),
            JourneyState::Ended => matches!(phase, Phase::Ended),
            JourneyState::Undone => matches!(phase, Phase::Undone),
        }
    }
}

/// The phases in which a journey is asked for.
#[derive(Clone, Copy, Debug, PartialEq, Eq)]
pub enum Phases {
    /// Each phase.
    All,
    /// A journey runs or goes back.
    Unfinished,
    /// A journey is in this state.
    Only(JourneyState),
}

impl Phases {
    /// Whether a journey in this phase is asked for.
    pub fn lets(self, phase: Phase) -> bool
        ensures asked { result ≡ is_phase_asked self phase }
    {
        match self {
            Phases::All => true,
            Phases::Unfinished => matches!(phase, Phase::Run | Phase::Back(_)),
            Phases::Only(state) => state.has(phase),
        }
    }
}

/// The journeys that a report shows.
#[derive(Clone, Copy, Debug, PartialEq, Eq)]
pub struct JourneyFilter {
    /// The agent who began them; `None` lets the journeys of each agent through.
    pub agent: Option<Agent>,
    pub phases: Phases,
}

impl JourneyFilter {
    ghost use Rattle.std.specs.Prelude.{List};
    ghost use Rattle.ledger.specs.Ledger.{Event};
    ghost use Rattle.saga_core.specs.Views.{unfinished_of};
    ghost use Rattle.saga_core.specs.JourneyFilters.{asked_of};

    /// The filter that lets each journey through that has not ended.
    pub fn unfinished() -> JourneyFilter
        ensures unfinished { (l : List Event) → asked_of result l ≡ unfinished_of l }
    {
        JourneyFilter {
            agent: None,
            phases: Phases::Unfinished,
        }
    }

    /// Whether the journey is asked for.
    pub fn lets(&self, journey: &Brief) -> bool
        ensures asked { result ≡ is_journey_asked self.now journey.now }
    {
        is_agent_asked(self.agent, journey.agent) && self.phases.lets(journey.cursor.phase)
    }
}

/// Whether an agent is asked for.
fn is_agent_asked(asked: Option<Agent>, agent: Agent) -> bool
    ensures asked { result ≡ is_name_asked asked agent }
{
    match asked {
        Some(asked) => agent.as_str() == asked.as_str(),
        None => true,
    }
}
