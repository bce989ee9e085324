//! The number of nodes that a call may still evaluate, and how many may be open at once.
ghost use Rattle.std.specs.Prelude.{◌≡◌, ◌-◌, OnErr, OnOk, false, is_some, true};
ghost use Rattle.schema_run_context.specs.Works.{Asks, IsBoundedInDepth, IsSpent, allowed, down_to, left_of, unlimited};

use schema_reports::OutOfMemory;
use std::alloc::AllocError;
use std::marker::Model;

/// The number of nodes that a call may still evaluate, if there is a limit.
///
/// It also records whether the call tried to exceed the limit. This happens only once no nodes are
/// left. And it says how many questions may be open at once, if there is a limit, and records
/// whether the call tried to open one more.
#[derive(Clone, Copy)]
pub struct Work {
    left: u64,
    limited: bool,
    stopped: bool,
    deepest: Option<usize>,
    too_deep: bool,
}

impl Model for Work {
    ghost use Rattle.schema_run_context.specs.Works.{Budget};
    ghost use Rattle.std.specs.Prelude.{◌≡◌, is_some, true};

    ghost Value = { Budget };

    ghost view = { λ w. record { left = w.left; limited = w.limited; stopped = w.stopped; deepest = w.deepest; too_deep = w.too_deep } };

    ghost inverse = { λ b. record { left = b.left; limited = b.limited; stopped = b.stopped; deepest = b.deepest; too_deep = b.too_deep } };

    ghost invariant = { λ w. (w.stopped ≡ true → (w.limited ≡ true) × (w.left ≡ 0)) × (w.too_deep ≡ true → is_some w.deepest ≡ true) };
}

impl Work {
    /// Returns a budget without a limit.
    pub fn unlimited() -> Work
        ensures any { result ≡ unlimited }
    {
        Work {
            left: u64::MAX,
            limited: false,
            stopped: false,
            deepest: None,
            too_deep: false,
        }
    }

    /// Returns a budget of this many nodes, or one without a limit.
    pub fn within(limit: Option<u64>) -> Work
        ensures within { result ≡ allowed limit }
    {
        match limit {
            None => Work::unlimited(),
            Some(left) => Work {
                left,
                limited: true,
                stopped: false,
                deepest: None,
                too_deep: false,
            },
        }
    }

    /// Sets how many questions may be open at once, if there is a limit.
    ///
    /// The call has not tried to open more.
    pub fn with_depth(self, most: Option<usize>) -> Work
        ensures down_to { result ≡ down_to most self }
    {
        let mut work = self;
        work.deepest = most;
        work.too_deep = false;
        work
    }

    /// Returns how many questions may be open at once, if there is a limit.
    pub fn depth_limit(&self) -> Option<usize>
        ensures deepest { result ≡ self.now.deepest }
    {
        self.deepest
    }

    /// Returns whether the call tried to open more questions at once than it may.
    ///
    /// If so, there is a limit.
    pub fn is_too_deep(&self) -> bool
        ensures too_deep { result ≡ self.now.too_deep }
        ensures bounded { result ≡ true → IsBoundedInDepth self.now }
    {
        self.too_deep
    }

    /// Returns whether the call tried to exceed the limit.
    ///
    /// If so, there is a limit, and no nodes are left.
    pub fn is_stopped(&self) -> bool
        ensures stopped { result ≡ self.now.stopped }
        ensures spent { result ≡ true → IsSpent self.now }
    {
        self.stopped
    }

    /// Returns the number of nodes that are left, if there is a limit.
    pub fn left(&self) -> Option<u64>
        ensures left { result ≡ left_of self.now }
    {
        if self.limited { Some(self.left) } else { None }
    }

    /// Counts the evaluation of a node.
    ///
    /// # Errors
    ///
    /// Returns an error exactly if there is a limit and no nodes are left. Then the budget is
    /// stopped.
    #[inline(always)]
    pub fn step(&mut self) -> Result<(), OutOfMemory>
        ensures asks { OnOk result (Asks self.old self.new) }
        ensures stops { OnErr result (IsSpent self.old) }
        ensures stopped { OnErr result (self.new ≡ record self.old { stopped = true }) }
    {
        if self.left > 0 {
            self.left -= 1;
            return Ok(());
        }
        if self.limited {
            self.stopped = true;
            return Err(AllocError);
        }
        Ok(())
    }

    /// Deducts this many nodes, or all that are left if they are fewer.
    pub fn spend(&mut self, asked: u64)
        ensures fewer { self.new ≡ record self.old { left = self.old.left - asked } }
    {
        self.left = self.left.saturating_sub(asked);
    }

    /// Records that the call tried to exceed the limit.
    ///
    /// Does nothing if there is no limit.
    pub fn stop(&mut self)
        ensures stopped { self.old.limited ≡ true → self.new ≡ record self.old { left = 0; stopped = true } }
        ensures unlimited { self.old.limited ≡ false → self.new ≡ self.old }
    {
        if self.limited {
            self.left = 0;
            self.stopped = true;
        }
    }

    /// Records that the call tried to open more questions at once than it may.
    ///
    /// Does nothing if there is no limit.
    pub fn stop_at_depth(&mut self)
        ensures too_deep { is_some self.old.deepest ≡ true → self.new ≡ record self.old { too_deep = true } }
        ensures unlimited { is_some self.old.deepest ≡ false → self.new ≡ self.old }
        ensures frame { self.new ≡ record self.old { too_deep = self.new.too_deep } }
    {
        if self.deepest.is_some() {
            self.too_deep = true;
        }
    }
}
