//! `minItems`, and an `items` that absorbs it and `type`.
//!
//! `minItems` alone and the `items` that absorbs it have one form, and so one proof.
ghost use Rattle.std.specs.Prelude.{◌≡◌, ◌+◌, ◌^◌, ◌<◌, IfOk, IfSome, option_map, OnOk};
ghost use Rattle.schema_reports.specs.InstanceViews.{subject_of};
ghost use Rattle.schema_traits.specs.FaultViews.{faults_in};
ghost use Rattle.schema_traits.specs.KeywordViews.{turn_of};
ghost use Rattle.keyword_authoring.specs.Items.{first_at_item};
ghost use Rattle.keyword_authoring.specs.Ways.{asked};
ghost use Rattle.example_fused_keywords.specs.Openings.{asked_count, before_of, checks_hold};
ghost use Rattle.example_fused_keywords.specs.Borrowing.{BorrowsAll, KeepsAll};
ghost use Rattle.keyword_authoring.specs.Borrowing.{Borrows, Retains};
ghost use Rattle.example_fused_keywords.specs.ArrayWords.{AreErrors, GivesFirst, HasFirstOf, IsOpening, Opens, StepsArray, TurnsArray};

use crate::checks::Check;
use keyword_authoring::{Progress, Stage, item_count, next_number};
use schema_reports::{EvaluationResult, Instance, OutOfMemory};
use schema_traits::{Answer, Below, Fault, Found, Mode, Reply, Step};
use std::alloc::Global;

/// A keyword about arrays.
///
/// It makes some checks, and may then ask its only child at items.
#[derive(Clone, Copy)]
pub enum ArrayKeyword {
    /// `minItems`, with its limit.
    MinItems(u64),
    /// `items`, which absorbs `type` "array" and `minItems`.
    ///
    /// It holds the number of items before its own, and the limit.
    ArrayShape(usize, u64),
}

fn ask_at_item<'s>(number: Option<usize>, mode: Mode) -> Step<'s>
    ensures step { turn_of result ≡ asked mode (option_map first_at_item number) }
{
    match number {
        Some(item) => Step::Ask(0, Below::Item(item), mode),
        None => Step::Done,
    }
}

/// Returns an answer with the first of these errors, if there is one.
fn first_of<'i>(alloc: Global, faults: Vec<Fault<'i>>) -> Result<Answer<'i>, OutOfMemory>
    ensures first { IfOk result (HasFirstOf faults.entry.items) }
    ensures borrows { IfOk result (λ a. KeepsAll faults.entry.items (faults_in a)) }
{
    match faults.into_iter().next() {
        Some(fault) => Ok(Answer::First(Some(Box::new(alloc, fault)?))),
        None => Ok(Answer::First(None)),
    }
}

impl ArrayKeyword {
    /// Returns the number of items that come before those of the child.
    fn before(self) -> usize
        ensures before { result ≡ before_of self }
    {
        match self {
            ArrayKeyword::MinItems(_) => 0,
            ArrayKeyword::ArrayShape(before, _) => before,
        }
    }

    /// Returns whether the instance passes the keyword's checks.
    fn checks_hold(self, instance: Instance<'_>) -> bool
        ensures holds { result ≡ checks_hold self (subject_of instance.entry) }
    {
        match self {
            ArrayKeyword::MinItems(least) => Check::HasLeast(least).holds(instance),
            ArrayKeyword::ArrayShape(_, least) => {
                Check::IsArray.holds(instance) && Check::HasLeast(least).holds(instance)
            }
        }
    }

    /// Returns the number of items at which a run in this mode asks the child.
    ///
    /// It is 0 if a failed check has ended the run.
    fn asked_count(self, mode: Mode, instance: Instance<'_>) -> usize
        ensures count { result ≡ asked_count mode self (subject_of instance.entry) }
        ensures fits { before_of self + result < 2 ^ 64 }
    {
        let ends = mode == Mode::Verdict || mode == Mode::First;
        if ends && !self.checks_hold(instance) {
            return 0;
        }
        match self {
            ArrayKeyword::MinItems(_) => 0,
            ArrayKeyword::ArrayShape(before, _) => {
                let all = item_count(instance);
                if before < all { all - before } else { 0 }
            }
        }
    }

    /// Returns the verdict, if a run for the verdict asks at no item.
    ///
    /// In that case the checks alone decide.
    pub fn holds_at_once(self, instance: Instance<'_>) -> Option<bool>
        ensures asks_none { IfSome result (λ _. asked_count Mode.Verdict self (subject_of instance.entry) ≡ 0) }
        ensures holds { IfSome result (λ valid. checks_hold self (subject_of instance.entry) ≡ valid) }
    {
        if self.asked_count(Mode::Verdict, instance) > 0 {
            return None;
        }
        Some(self.checks_hold(instance))
    }

    /// Returns the errors of the keyword's checks.
    fn errors<'i>(
        self,
        alloc: Global,
        instance: Instance<'i>,
    ) -> Result<Vec<Fault<'i>>, OutOfMemory>
        ensures errors { IfOk result (λ faults. AreErrors self instance.entry faults.items) }
        ensures borrows { IfOk result (λ faults. BorrowsAll faults.items) }
    {
        let mut faults = Vec::new(alloc);
        match self {
            ArrayKeyword::MinItems(least) => {
                Check::HasLeast(least).push_error(alloc, false, instance, &mut faults)?;
                Ok(faults)
            }
            ArrayKeyword::ArrayShape(_, least) => {
                Check::IsArray.push_error(alloc, true, instance, &mut faults)?;
                Check::HasLeast(least).push_error(alloc, true, instance, &mut faults)?;
                Ok(faults)
            }
        }
    }

    /// Returns what the checks contribute to an evaluation.
    fn evaluation<'i>(
        self,
        alloc: Global,
        instance: Instance<'i>,
    ) -> Result<Answer<'i>, OutOfMemory>
        ensures gives { IfOk result (GivesFirst self instance.entry) }
        ensures borrows { IfOk result (λ a. BorrowsAll (faults_in a)) }
    {
        let mut absorbed = Vec::new(alloc);
        match self {
            ArrayKeyword::MinItems(least) => {
                let own = Check::HasLeast(least).result(alloc, instance)?;
                let found = Box::new(alloc, Found { own, absorbed })?;
                Ok(Answer::Evaluation(found))
            }
            ArrayKeyword::ArrayShape(_, least) => {
                absorbed.push(Check::IsArray.absorbed_result(alloc, instance)?)?;
                absorbed.push(Check::HasLeast(least).absorbed_result(alloc, instance)?)?;
                let own = EvaluationResult::valid_empty(alloc);
                let found = Box::new(alloc, Found { own, absorbed })?;
                Ok(Answer::Evaluation(found))
            }
        }
    }

    /// Returns the answer of a run in this mode to the checks alone.
    fn opened<'i>(
        self,
        alloc: Global,
        mode: Mode,
        instance: Instance<'i>,
    ) -> Result<Answer<'i>, OutOfMemory>
        ensures opened { IfOk result (IsOpening mode self instance.entry) }
        ensures borrows { IfOk result (λ a. BorrowsAll (faults_in a)) }
    {
        match mode {
            Mode::Verdict => Ok(Answer::Verdict(self.checks_hold(instance))),
            Mode::First => {
                let faults = self.errors(alloc, instance)?;
                first_of(alloc, faults)
            }
            Mode::All => Ok(Answer::All(self.errors(alloc, instance)?)),
            Mode::Evaluate => self.evaluation(alloc, instance),
        }
    }

    /// Puts what the checks find into the answer, in the first turn.
    fn open<'i>(
        self,
        alloc: Global,
        run: &Progress,
        instance: Instance<'i>,
        answer: &mut Answer<'i>,
    ) -> Result<(), OutOfMemory>
        ensures opened { OnOk result (Opens run.now self instance.entry answer.old answer.new) }
        ensures borrows { Retains answer.old answer.new result }
    {
        match run.stage {
            Stage::Begun => {
                *answer = self.opened(alloc, run.mode, instance)?;
                Ok(())
            }
            _ => Ok(()),
        }
    }

    /// Takes a turn.
    ///
    /// The first turn puts what the checks find into the answer. Later turns evaluate the
    /// child at one item after the other.
    pub fn turn<'s, 'i>(
        self,
        alloc: Global,
        run: &mut Progress,
        instance: Instance<'i>,
        reply: Reply<'i>,
        answer: &mut Answer<'i>,
    ) -> Result<Step<'s>, OutOfMemory>
        ensures turns { OnOk result (TurnsArray self instance.entry run.old answer.old reply.entry run.new answer.new) }
        ensures steps { StepsArray self instance.entry run.old answer.old reply.entry result }
        ensures borrows { Borrows reply.entry answer.old answer.new result }
    {
        let mode = run.mode;
        let count = self.asked_count(mode, instance);
        self.open(alloc, run, instance, answer)?;
        let number = next_number(alloc, self.before(), count, run, reply, answer)?;
        Ok(ask_at_item(number, mode))
    }
}
