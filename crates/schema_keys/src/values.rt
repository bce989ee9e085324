//! The value at a key's place, and the text of a reference.
ghost use Rattle.std.specs.Prelude.{◌≡◌, ◌∷◌, [], IfErr, IfOk, None, option_map, string_bytes, OnErr};
ghost use Rattle.serde_json.specs.Data.{string};
ghost use Rattle.serde_json.specs.Find.{as_bool, as_object, as_str};
ghost use Rattle.serde_json.specs.View.{view, members_view};
ghost use Rattle.theory_meaning.specs.Refusals.{not_a_schema};
ghost use Rattle.schema_node_table.specs.NodeViews.{boolean_plan, plan_of};
ghost use Rattle.schema_traits.specs.ResolverViews.{IsReadAt, place_of};
ghost use Rattle.schema_keys.specs.Readings.{IsBooleanForm, IsReading, read_value};
ghost use Rattle.schema_keys.specs.Refusing.{Names};
ghost use Rattle.schema_keys.specs.Here.{RefusesText};

use crate::context::Context;
use crate::error::BuildError;
use crate::key::SchemaKey;
use schema_node_table::NodeForm;
use schema_traits::Resolver;
use serde_json::{Map, Value};

/// The value at a key's place, if it was read already.
#[derive(Clone, Copy)]
pub enum Reading<'p> {
    Read(Option<&'p Value>),
    Unread,
}

/// Returns the value at a key's place. Reads it if it was not read already.
pub fn value_of<'p, R: Resolver>(
    resolver: &'p R,
    key: &SchemaKey<R::State>,
    reading: Reading<'p>,
) -> Option<&'p Value>
    requires reading { IsReading ((R.resolving resolver.now).value (place_of key.now.place)) reading }
    ensures value { IsReadAt (R.resolving resolver.now) key.now.place result }
{
    match reading {
        Reading::Read(value) => value,
        Reading::Unread => resolver.value(&key.place),
    }
}

/// Returns the members of a value, if it is an object.
pub fn object_of<'v>(value: Option<&'v Value>) -> Option<&'v Map<String, Value>>
    ensures object { option_map (λ m. members_view m.now.entries) result ≡ as_object (read_value value.entry) }
{
    match value {
        Some(value) => value.as_object(),
        None => None,
    }
}

impl<'p, 'c, R: Resolver> Context<'p, 'c, R> {
    /// Returns the node form of a value that is no object.
    ///
    /// Of these values, only a boolean is a schema.
    pub fn plain_form<K: Drop>(&self, value: Option<&Value>) -> Result<NodeForm<K>, BuildError>
        ensures form { IfOk result (IsBooleanForm value.entry) }
        ensures refused { IfErr result (Names (not_a_schema self.now.key.now.location ∷ [])) }
        ensures other { OnErr result (as_bool (read_value value.entry) ≡ None) }
    {
        match value.and_then(|value| value.as_bool()) {
            Some(accepts) => Ok(form_of_boolean(accepts)),
            None => Err(BuildError::NotASchema(self.location().clone()?)),
        }
    }

    /// Returns the text of the schema's reference with this name.
    ///
    /// Its value has to be a string.
    pub fn text_of<'v>(&self, name: &String, value: &'v Value) -> Result<&'v String, BuildError>
        ensures text { IfOk result (λ text. view value.now ≡ string (string_bytes text.now)) }
        ensures refused { IfErr result (RefusesText self.now name.now) }
        ensures other { OnErr result (as_str (view value.now) ≡ None) }
    {
        match value {
            Value::String(text) => Ok(text),
            Value::Null => Err(self.not_text(name)),
            Value::Bool(_) => Err(self.not_text(name)),
            Value::Number(_) => Err(self.not_text(name)),
            Value::Array(_) => Err(self.not_text(name)),
            Value::Object(_) => Err(self.not_text(name)),
        }
    }

    // The error for a reference with this name that is no string, or out of memory.
    fn not_text(&self, name: &String) -> BuildError
        ensures refused { RefusesText self.now name.now result }
    {
        match self.new_at_location(name.as_str()) {
            Ok(location) => BuildError::ReferenceNotText(location),
            Err(_) => BuildError::OutOfMemory,
        }
    }
}

fn form_of_boolean<K: Drop>(accepts: bool) -> NodeForm<K>
    ensures form { plan_of result ≡ boolean_plan accepts }
{
    if accepts {
        NodeForm::Always
    } else {
        NodeForm::Never
    }
}
