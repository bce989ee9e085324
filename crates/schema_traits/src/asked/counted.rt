//! Questions to a keyword's children at its own place, and at items.
ghost use Rattle.std.specs.Prelude.{◌≡◌, ◌≤◌, [], IfSome, length, map, min};
ghost use Rattle.theory_definitions.specs.Instance.{Subject};
ghost use Rattle.schema_reports.specs.InstanceViews.{subject_of};
ghost use Rattle.schema_traits.specs.AskedAtOnce.{child_at, child_here, numbers_from};
ghost use Rattle.schema_traits.specs.Questions.{AsksFirst, AsksNext, StandsThere};
ghost use Rattle.schema_traits.specs.Walks.{of_items, at_items_from, children_between, listed_between};

use crate::asked::AskedQuestion;
use schema_reports::{Instance, InstanceStep};
use serde_json::Value;
use std::marker::Model;

// Children at the keyword's own place: the next one, and the number of them.
#[derive(Drop)]
struct HereWalk<'i> {
    instance: Instance<'i>,
    next: usize,
    end: usize,
}

// The first child at each item: the next item.
#[derive(Drop)]
struct ItemsWalk<'i> {
    items: &'i [Value],
    next: usize,
}

// Each child at the item with its index: the next one, and the index at which they end.
#[derive(Drop)]
struct ListedWalk<'i> {
    items: &'i [Value],
    next: usize,
    end: usize,
}

// The kinds of questions, each with how far it has come.
#[derive(Drop)]
enum Walk<'i> {
    Here(HereWalk<'i>),
    Items(ItemsWalk<'i>),
    Listed(ListedWalk<'i>),
}

/// Iterator over questions to children at the keyword's own place, or at items.
///
/// Contracts see the subject, and the questions that are left.
#[derive(Drop)]
pub struct CountedQuestions<'i> {
    walk: Walk<'i>,
}

impl<'i> Model for CountedQuestions<'i> {
    ghost use Rattle.std.specs.Coded.{codes};
    ghost use Rattle.json_values.specs.Coding.{data_code};
    ghost use Rattle.schema_traits.specs.Questions.{QuestionsLeft};
    ghost use Rattle.schema_traits.specs.Walks.{IsOnItsWay, left_in, subject_in};

    ghost Value = { QuestionsLeft };

    ghost coded = { Prim.hlevel (codes, data_code) };

    ghost view = { λ q. record { subject = subject_in q.walk; left = left_in q.walk } };

    ghost invariant = { λ q. IsOnItsWay q.walk };
}

impl<'i> CountedQuestions<'i> {
    /// Returns the questions to the first `end` children, at the keyword's place.
    ///
    /// Allocates nothing.
    #[inline(always)]
    pub fn here(instance: Instance<'i>, end: usize) -> CountedQuestions<'i>
        ensures subject { result.subject ≡ subject_of instance.entry }
        ensures left { result.left ≡ map child_here (numbers_from 0 end) }
    {
        CountedQuestions {
            walk: Walk::Here(HereWalk {
                instance,
                next: 0,
                end,
            }),
        }
    }

    /// Returns the questions to the first child at each item from `next` on.
    ///
    /// Allocates nothing.
    #[inline(always)]
    pub fn items(next: usize, items: &'i [Value]) -> CountedQuestions<'i>
        ensures subject { result.subject ≡ of_items items.now }
        ensures left { result.left ≡ at_items_from next items.now }
    {
        CountedQuestions {
            walk: Walk::Items(ItemsWalk { items, next }),
        }
    }

    /// Returns the questions to each child at the item with its index.
    ///
    /// There are `count` children, or as many as there are items, if those are fewer. Allocates
    /// nothing.
    #[inline(always)]
    pub fn listed(count: usize, items: &'i [Value]) -> CountedQuestions<'i>
        ensures subject { result.subject ≡ of_items items.now }
        ensures left { result.left ≡ map (λ k. child_at k k) (numbers_from 0 (min count (length items.now))) }
    {
        CountedQuestions {
            walk: Walk::Listed(ListedWalk {
                items,
                next: 0,
                end: count.min(items.len()),
            }),
        }
    }

    /// Returns the next question, or `None` if none is left. Allocates nothing.
    #[inline(always)]
    pub fn next(&mut self) -> Option<AskedQuestion<'i>>
        ensures next { AsksNext self.old.left result self.new.left }
        ensures there { IfSome result (StandsThere self.old.subject) }
        ensures ended { self.old.left ≡ [] → self.new.left ≡ [] }
        ensures subject { self.new.subject ≡ self.old.subject }
    {
        match &mut self.walk {
            Walk::Here(walk) => next_here(&mut walk.next, walk.end),
            Walk::Items(walk) => next_item(walk.items, &mut walk.next),
            Walk::Listed(walk) => next_listed(walk.items, &mut walk.next, walk.end),
        }
    }
}

#[inline(always)]
fn next_here<'i>(next: &mut usize, end: usize) -> Option<AskedQuestion<'i>>
    ensures asks { (s : Subject) → AsksFirst s (children_between next.old end) result (children_between next.new end) }
{
    if *next >= end {
        return None;
    }
    let child = *next;
    *next += 1;
    Some(AskedQuestion { child, below: None })
}

#[inline(always)]
fn next_item<'i>(items: &'i [Value], next: &mut usize) -> Option<AskedQuestion<'i>>
    ensures asks { AsksFirst (of_items items.now) (at_items_from next.old items.now) result (at_items_from next.new items.now) }
{
    if *next >= items.len() {
        return None;
    }
    let place = *next;
    *next += 1;
    Some(AskedQuestion {
        child: 0,
        below: Some((Instance::Value(&items[place]), InstanceStep::Item(place))),
    })
}

#[inline(always)]
fn next_listed<'i>(items: &'i [Value], next: &mut usize, end: usize) -> Option<AskedQuestion<'i>>
    requires within { end ≤ length items.now }
    ensures asks { AsksFirst (of_items items.now) (listed_between next.old end) result (listed_between next.new end) }
{
    if *next >= end {
        return None;
    }
    let place = *next;
    *next += 1;
    Some(AskedQuestion {
        child: place,
        below: Some((Instance::Value(&items[place]), InstanceStep::Item(place))),
    })
}
