//! The time that the lines of a file take.
ghost use Rattle.std.specs.Prelude.{◌≡◌, ◌+◌, ◌≤◌, ◌⊎◌, IfSome, IsNone};

use crate::desk::Desk;
use crate::tally::Tally;
use schema_reports::OutOfMemory;
use std::time::Instant;

/// The milliseconds between two lines that report progress.
const BETWEEN: u64 = 1000;

/// The time at which the lines began, and the time of the last report.
#[derive(Clone, Copy)]
pub struct Watch {
    /// `None` if the clock cannot be read.
    pub begun: Option<Instant>,
    /// The milliseconds from the beginning to the last report, or 0.
    pub told: u64,
}

impl Watch {
    /// Starts a watch now.
    pub fn new(rt: &HostRuntime) -> Watch
        ensures untold { result.told ≡ 0 }
    {
        Watch {
            begun: Instant::now(rt).ok(),
            told: 0,
        }
    }

    /// Returns the milliseconds since the beginning, if the clock can be read.
    pub fn millis(&self, rt: &HostRuntime) -> Option<u64>
        ensures begun { IsNone self.now.begun → IsNone result }
    {
        let elapsed = self.begun?.elapsed(rt).ok()?;
        u64::try_from(elapsed.as_millis()).ok()
    }

    // Returns the milliseconds since the beginning, and notes them as those of the last report.
    // Returns `None` if less than a second has passed since that report.
    fn to_tell(&mut self, rt: &HostRuntime) -> Option<u64>
        ensures begun { self.new.begun ≡ self.old.begun }
        ensures told { IfSome result (λ millis. self.new.told ≡ millis) }
        ensures untold { IfSome result (λ millis. self.old.told + 1000 ≤ millis) }
        ensures kept { IsNone result → self.new ≡ self.old }
    {
        let millis = self.millis(rt)?;
        if millis.saturating_sub(self.told) < BETWEEN {
            return None;
        }
        self.told = millis;
        Some(millis)
    }

    /// Reports progress on standard error, but at most once a second.
    ///
    /// Does not allocate.
    pub fn tell(&mut self, rt: &HostRuntime, file: &str, tally: &Tally)
        ensures begun { self.new.begun ≡ self.old.begun }
        ensures told { (self.new.told ≡ self.old.told) ⊎ (self.old.told + 1000 ≤ self.new.told) }
    {
        if let Some(millis) = self.to_tell(rt) {
            let rate = tally.rate(millis);
            let (lines, refused, unanswered) = (tally.instances, tally.refused, tally.unanswered);
            let _ = eprintln!(rt;
                "{file}: {lines} lines: {refused} refused, {unanswered} unanswered, {rate} lines a second"
            );
        }
    }

    /// Reports the counts of a file's lines, and how long they took.
    ///
    /// The counts go where the desk says what sums up, and the time to standard error.
    ///
    /// # Errors
    ///
    /// Out of memory.
    pub fn sum_up(
        &self,
        rt: &HostRuntime,
        desk: &mut Desk,
        file: &str,
        tally: &Tally,
    ) -> Result<(), OutOfMemory>
        ensures tally { desk.new.tally ≡ desk.old.tally }
    {
        let counts = tally.text(rt.alloc(), "lines")?;
        let line = format!(in rt.alloc(); "{file}: {counts}");
        drop(counts);
        let line = line?;
        desk.say(rt, line.as_str());
        drop(line);
        if let Some(millis) = self.millis(rt) {
            let rate = tally.rate(millis);
            let _ = eprintln!(rt; "{file}: {millis} ms, {rate} lines a second");
        }
        Ok(())
    }
}
