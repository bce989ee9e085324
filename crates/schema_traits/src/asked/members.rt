//! Questions to a keyword's children at the members with their names.
ghost use Rattle.std.specs.Prelude.{◌≡◌, [], IfSome, drop};
ghost use Rattle.theory_definitions.specs.Instance.{Subject};
ghost use Rattle.schema_traits.specs.Members.{HaveAllOf, of_members};
ghost use Rattle.schema_traits.specs.Questions.{AsksFirst, AsksNext, StandsThere, at_names};

use crate::ascending::AscendingNames;
use crate::asked::AskedQuestion;
use schema_reports::{Instance, InstanceStep};
use serde_json::{Map, Value};
use std::collections::btree_map::Iter;
use std::marker::Model;

/// Iterator over the questions to each child at the member with its name.
///
/// It holds the next child, and the members that are left. Contracts see the subject, and the
/// questions that are left.
#[derive(Drop)]
pub struct MembersQuestions<'s, 'i> {
    whole: &'i Map<String, Value>,
    names: &'s AscendingNames,
    next: usize,
    members: Iter<'i, String, Value>,
}

impl<'s, 'i> Model for MembersQuestions<'s, 'i> {
    ghost use Rattle.std.specs.Coded.{codes};
    ghost use Rattle.json_values.specs.Coding.{data_code};
    ghost use Rattle.serde_json.specs.Data.{object};
    ghost use Rattle.serde_json.specs.View.{members_view};
    ghost use Rattle.std.specs.Prelude.{drop};
    ghost use Rattle.theory_definitions.specs.Instance.{a_value};
    ghost use Rattle.schema_traits.specs.Members.{HaveAllOf};
    ghost use Rattle.schema_traits.specs.Questions.{QuestionsLeft, at_names};

    ghost Value = { QuestionsLeft };

    ghost coded = { Prim.hlevel (codes, data_code) };

    ghost view = { λ q. record {
      subject = a_value (object (members_view q.whole.now.entries));
      left = at_names (a_value (object (members_view q.whole.now.entries))) q.next (drop q.next q.names.now);
    } };

    ghost invariant = { λ q. HaveAllOf (a_value (object (members_view q.whole.now.entries))) (drop q.next q.names.now) q.members };
}

impl<'s, 'i> MembersQuestions<'s, 'i> {
    /// Returns the questions to each child at the member with its name, if any.
    ///
    /// Allocates nothing.
    #[inline(always)]
    pub fn of(
        names: &'s AscendingNames,
        members: &'i Map<String, Value>,
    ) -> MembersQuestions<'s, 'i>
        ensures subject { result.subject ≡ of_members members.now.entries }
        ensures left { result.left ≡ at_names (of_members members.now.entries) 0 names.now }
    {
        MembersQuestions {
            whole: members,
            names,
            next: 0,
            members: members.iter(),
        }
    }

    /// Returns the next question, or `None` if none is left. Allocates nothing.
    #[inline(always)]
    pub fn next(&mut self) -> Option<AskedQuestion<'i>>
        ensures next { AsksNext self.old.left result self.new.left }
        ensures there { IfSome result (StandsThere self.old.subject) }
        ensures ended { self.old.left ≡ [] → self.new.left ≡ [] }
        ensures subject { self.new.subject ≡ self.old.subject }
    {
        next_member(self.names, &mut self.next, &mut self.members)
    }
}

// Names and members both ascend, so each member is looked up only behind the one before.
#[inline(always)]
fn next_member<'i>(
    names: &AscendingNames,
    next: &mut usize,
    members: &mut Iter<'i, String, Value>,
) -> Option<AskedQuestion<'i>>
    ensures way { (s : Subject) → HaveAllOf s (drop next.old names.now) members.old → HaveAllOf s (drop next.new names.now) members.new }
    ensures asks { (s : Subject) → HaveAllOf s (drop next.old names.now) members.old
        → AsksFirst s (at_names s next.old (drop next.old names.now)) result (at_names s next.new (drop next.new names.now)) }
{
    let count = names.as_slice().len();
    while *next < count {
        let (name, member) = members.next()?;
        let name = name.as_str();
        let (child, found) = names.place_from(*next, name);
        if found {
            *next = child + 1;
            return Some(AskedQuestion {
                child,
                below: Some((Instance::Value(member), InstanceStep::Member(name))),
            });
        }
        *next = child;
    }
    None
}
