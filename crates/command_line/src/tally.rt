//! Counts of instances.
ghost use Rattle.std.specs.Prelude.{◌≡◌, max};
ghost use Rattle.command_line.specs.Outcomes.{code_of};
ghost use Rattle.command_line.specs.Tallies.{counted, no_instances, outcome_of, rate_of};

use crate::outcomes::Outcome;
use schema_reports::OutOfMemory;
use std::alloc::Global;

/// The number of instances, and how many of them were refused or had no answer.
///
/// Each count stops at the greatest number of 64 bits.
#[derive(Clone, Copy, Debug, PartialEq, Eq)]
pub struct Tally {
    pub instances: u64,
    pub refused: u64,
    pub unanswered: u64,
}

impl Tally {
    /// Creates a tally without instances.
    pub fn new() -> Tally
        ensures none { result ≡ no_instances }
    {
        Tally {
            instances: 0,
            refused: 0,
            unanswered: 0,
        }
    }

    /// Counts an instance with this outcome.
    pub fn count(&mut self, outcome: Outcome)
        ensures counted { self.new ≡ counted outcome self.old }
        ensures together { code_of (outcome_of self.new) ≡ max (code_of (outcome_of self.old)) (code_of outcome) }
    {
        self.instances = self.instances.saturating_add(1);
        match outcome {
            Outcome::Accepted => {}
            Outcome::Refused => self.refused = self.refused.saturating_add(1),
            Outcome::Unanswered => self.unanswered = self.unanswered.saturating_add(1),
        }
    }

    /// Returns the outcome of all instances taken together.
    pub fn outcome(&self) -> Outcome
        ensures outcome { result ≡ outcome_of self.now }
    {
        if self.unanswered > 0 {
            Outcome::Unanswered
        } else if self.refused > 0 {
            Outcome::Refused
        } else {
            Outcome::Accepted
        }
    }

    /// Returns the number of instances per second over this many milliseconds.
    ///
    /// Zero milliseconds count as one.
    pub fn rate(&self, millis: u64) -> u64
        ensures rate { result ≡ rate_of self.now.instances millis }
    {
        let thousands = u128::from(self.instances) * 1000;
        let rate = thousands / u128::from(millis.max(1));
        rate.min(u128::from(u64::MAX)) as u64
    }

    /// Returns the counts as text: `3 lines: 1 refused, 1 unanswered`.
    ///
    /// `what` names the instances.
    ///
    /// # Errors
    ///
    /// Out of memory.
    pub fn text(&self, alloc: Global, what: &str) -> Result<String, OutOfMemory> {
        let (instances, refused, unanswered) = (self.instances, self.refused, self.unanswered);
        format!(in alloc; "{instances} {what}: {refused} refused, {unanswered} unanswered")
    }
}
