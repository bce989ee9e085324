//! The outcome for an instance, and for a run.
ghost use Rattle.std.specs.Prelude.{◌≡◌, if◌then◌else◌, max};
ghost use Rattle.command_line.specs.Outcomes.{code_of};

/// The outcome for an instance, or for several taken together.
#[derive(Clone, Copy, Debug, PartialEq, Eq)]
pub enum Outcome {
    /// The instance is accepted; of several, all are.
    Accepted,
    /// The instance is refused; of several, one is, and each has an answer.
    Refused,
    /// There is no answer; of several, one has none.
    Unanswered,
}

impl Outcome {
    /// Returns the outcome for an instance that is accepted or not.
    pub fn of(accepted: bool) -> Outcome
        ensures code { code_of result ≡ (if accepted then 0 else 1) }
    {
        if accepted {
            Outcome::Accepted
        } else {
            Outcome::Refused
        }
    }

    /// Returns the exit status of the process.
    pub fn code(self) -> u8
        ensures code { result ≡ code_of self }
    {
        match self {
            Outcome::Accepted => 0,
            Outcome::Refused => 1,
            Outcome::Unanswered => 2,
        }
    }

    /// Returns the outcome of both together: the one with the greater status.
    pub fn and(self, other: Outcome) -> Outcome
        ensures greater { code_of result ≡ max (code_of self) (code_of other) }
    {
        match (self, other) {
            (Outcome::Unanswered, _) | (_, Outcome::Unanswered) => Outcome::Unanswered,
            (Outcome::Refused, _) | (_, Outcome::Refused) => Outcome::Refused,
            (Outcome::Accepted, Outcome::Accepted) => Outcome::Accepted,
        }
    }
}
