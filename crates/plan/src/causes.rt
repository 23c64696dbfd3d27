//! What is wrong with a plan.
ghost use Rattle.std.specs.Prelude.{◌≡◌};
ghost use Rattle.plan.specs.Causes.{cause_word};

/// What is wrong with a plan, in the order of the checks.
#[derive(Clone, Copy, Debug, PartialEq, Eq)]
pub enum PlanCause {
    /// A line does not end with `!` and one digit, or the JSON tries are no whole number from 0 to 9.
    Tries,
    /// There is no step, or there are more than 24.
    Steps,
    /// The last step is marked.
    Save,
    /// A step has no option, or more than 8.
    Options,
    /// An option has not its six parts, or a JSON value has not just the members of a plan, a step or an option.
    Shape,
    /// The kind is none of the four letters, or in JSON none of the four words.
    Kind,
    /// The supplier or the product is not 1 to 8 of `A`-`Z` and `0`-`9`.
    Code,
    /// The first night is no day from 2000-01-01 to 2099-12-31.
    Night,
    /// There are no nights, more than the kind may have, or the last is after 2099-12-31.
    Nights,
    /// The count is not 1 to 50.
    Count,
}

impl PlanCause {
    /// The word that a refusal shows, as `night`.
    pub fn word(&self) -> &'static str
        ensures word { result.now ≡ cause_word self.now }
    {
        match self {
            PlanCause::Tries => "tries",
            PlanCause::Steps => "steps",
            PlanCause::Save => "save",
            PlanCause::Options => "options",
            PlanCause::Shape => "shape",
            PlanCause::Kind => "kind",
            PlanCause::Code => "code",
            PlanCause::Night => "night",
            PlanCause::Nights => "nights",
            PlanCause::Count => "count",
        }
    }
}
