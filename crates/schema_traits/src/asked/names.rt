//! Questions to a keyword's first child at the names of members.
ghost use Rattle.std.specs.Prelude.{◌≡◌, [], IfSome};
ghost use Rattle.theory_definitions.specs.Instance.{Subject};
ghost use Rattle.schema_traits.specs.Members.{AreNamed, at_their_names, of_members};
ghost use Rattle.schema_traits.specs.Questions.{AsksFirst, AsksNext, StandsThere};

use crate::asked::AskedQuestion;
use schema_reports::{Instance, InstanceStep};
use serde_json::{Map, Value};
use std::collections::btree_map::Iter;
use std::marker::Model;

/// Iterator over the questions to the first child at the name of each member.
///
/// It holds the members that are left. Contracts see the subject, and the questions that are left.
#[derive(Drop)]
pub struct NamesQuestions<'i> {
    whole: &'i Map<String, Value>,
    members: Iter<'i, String, Value>,
}

impl<'i> Model for NamesQuestions<'i> {
    ghost use Rattle.std.specs.Coded.{codes};
    ghost use Rattle.json_values.specs.Coding.{data_code};
    ghost use Rattle.serde_json.specs.Data.{object};
    ghost use Rattle.serde_json.specs.View.{members_view};
    ghost use Rattle.theory_definitions.specs.Instance.{a_value};
    ghost use Rattle.schema_traits.specs.Members.{AreNamed, at_their_names};
    ghost use Rattle.schema_traits.specs.Questions.{QuestionsLeft};

    ghost Value = { QuestionsLeft };

    ghost coded = { Prim.hlevel (codes, data_code) };

    ghost view = { λ q. record { subject = a_value (object (members_view q.whole.now.entries)); left = at_their_names q.members } };

    ghost invariant = { λ q. AreNamed (a_value (object (members_view q.whole.now.entries))) q.members };
}

impl<'i> NamesQuestions<'i> {
    /// Returns the questions to the first child at the name of each member.
    ///
    /// Allocates nothing.
    #[inline(always)]
    pub fn of(members: &'i Map<String, Value>) -> NamesQuestions<'i>
        ensures subject { result.subject ≡ of_members members.now.entries }
        ensures left { result.left ≡ at_their_names members.now.entries }
    {
        NamesQuestions {
            whole: members,
            members: members.iter(),
        }
    }

    /// Returns the next question, or `None` if none is left. Allocates nothing.
    #[inline(always)]
    pub fn next(&mut self) -> Option<AskedQuestion<'i>>
        ensures next { AsksNext self.old.left result self.new.left }
        ensures there { IfSome result (StandsThere self.old.subject) }
        ensures ended { self.old.left ≡ [] → self.new.left ≡ [] }
        ensures subject { self.new.subject ≡ self.old.subject }
    {
        next_name(&mut self.members)
    }
}

#[inline(always)]
fn next_name<'i>(members: &mut Iter<'i, String, Value>) -> Option<AskedQuestion<'i>>
    ensures way { (s : Subject) → AreNamed s members.old → AreNamed s members.new }
    ensures asks { (s : Subject) → AreNamed s members.old → AsksFirst s (at_their_names members.old) result (at_their_names members.new) }
{
    let (name, _) = members.next()?;
    let name = name.as_str();
    Some(AskedQuestion {
        child: 0,
        below: Some((Instance::Name(name), InstanceStep::NameOf(name))),
    })
}
