//! The copy of a document with `{}` in place of its embedded resources.
ghost use Rattle.std.specs.Prelude.{◌≡◌, ◌∷◌, [], IfOk};
ghost use Rattle.serde_json.specs.View.{items_view, members_view, view};
ghost use Rattle.theory_definitions.specs.Drafts.{at_path};
ghost use Rattle.schema_traits.specs.ResolverViews.{place_of};
ghost use Rattle.schema_traits.specs.SchemaViews.{schema_step_of};
ghost use Rattle.schema_keys.specs.CheckHere.{is_cut_out, masked_at, masked_below_at, masked_items_at, masked_members_at};
ghost use Rattle.schema_traits.specs.Showing.{Shows};

use crate::check::SchemaCheck;
use crate::check::embedded::Cut;
use schema_reports::OutOfMemory;
use schema_traits::{MetaValidators, Resolver, SchemaPlace, SchemaStep};
use serde_json::{Map, Value};
use std::rc::RcStr;

fn one_below(place: &SchemaPlace, step: SchemaStep) -> Result<SchemaPlace, OutOfMemory>
    ensures below { Shows place_of result (at_path (place_of place.now) (schema_step_of step ∷ [])) }
{
    let mut below = place.clone()?;
    below.path.push(step)?;
    Ok(below)
}

impl<'p, R: Resolver, V: MetaValidators> SchemaCheck<'p, R, V> {
    fn is_cut(&self, cuts: &[Cut], place: &SchemaPlace) -> bool
        ensures cut { result ≡ is_cut_out R.Resolver self.now cuts.now place.now }
    {
        cuts.iter().any(|cut| cut.place.path == place.path)
    }

    /// Returns a copy of the value at a place, with `{}` at the cuts below it.
    #[cycle(mask)]
    pub(crate) fn masked(
        &self,
        cuts: &[Cut],
        place: &SchemaPlace,
        value: &Value,
    ) -> Result<Value, OutOfMemory>
        ensures masked { Shows view result (masked_at R.Resolver self.now cuts.now place.now value.now) }
    {
        match value {
            Value::Array(items) => Ok(Value::Array(self.masked_items(cuts, place, items)?)),
            Value::Object(members) => Ok(Value::Object(self.masked_members(cuts, place, members)?)),
            Value::Null => Ok(Value::Null),
            Value::Bool(truth) => Ok(Value::Bool(*truth)),
            Value::Number(number) => Ok(Value::Number(*number)),
            Value::String(text) => Ok(Value::String(text.clone()?)),
        }
    }

    /// The same for the items of an array.
    #[cycle(mask)]
    fn masked_items(
        &self,
        cuts: &[Cut],
        place: &SchemaPlace,
        items: &Vec<Value>,
    ) -> Result<Vec<Value>, OutOfMemory>
        ensures masked { IfOk result (λ v. items_view v.items ≡ masked_items_at R.Resolver self.now cuts.now place.now items.now.items) }
    {
        let mut copies = Vec::new(self.alloc);
        for (index, item) in items.iter().enumerate() {
            let below = one_below(place, SchemaStep::Item(index))?;
            let copy = self.masked_below(cuts, &below, item)?;
            copies.push(copy)?;
        }
        Ok(copies)
    }

    /// The same for the members of an object.
    #[cycle(mask)]
    fn masked_members(
        &self,
        cuts: &[Cut],
        place: &SchemaPlace,
        members: &Map<String, Value>,
    ) -> Result<Map<String, Value>, OutOfMemory>
        ensures masked { IfOk result (λ v. members_view v.entries ≡
            masked_members_at R.Resolver self.now cuts.now place.now members.now.entries) }
    {
        let mut copies = Map::new(self.alloc);
        for (name, member) in members.iter() {
            let step = SchemaStep::Member(RcStr::from_str(self.alloc, name.as_str())?);
            let below = one_below(place, step)?;
            let copy = self.masked_below(cuts, &below, member)?;
            drop(below);
            let name = name.clone()?;
            drop(copies.insert(name, copy)?);
        }
        Ok(copies)
    }

    /// Returns the copy of a value inside a document: `{}` if it is cut out.
    #[cycle(mask)]
    fn masked_below(
        &self,
        cuts: &[Cut],
        place: &SchemaPlace,
        value: &Value,
    ) -> Result<Value, OutOfMemory>
        ensures masked { Shows view result (masked_below_at R.Resolver self.now cuts.now place.now value.now) }
    {
        if self.is_cut(cuts, place) {
            Ok(Value::Object(Map::new(self.alloc)))
        } else {
            self.masked(cuts, place, value)
        }
    }
}
