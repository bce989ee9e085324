//! Whether a document may refer to the standard's meta-schemas.
use serde_json::{Map, Value};

/// Returns whether a text begins as the URIs of the standard's meta-schemas do.
fn begins_as_standard(text: &str) -> bool {
    text.starts_with("http://json-schema.org/") || text.starts_with("https://json-schema.org/")
}

/// Returns whether a string in a value begins as those URIs do.
///
/// A string under `$schema` does not count.
#[cycle(mentions)]
pub(crate) fn mentions_standard(value: &Value) -> bool {
    match value {
        Value::String(text) => begins_as_standard(text.as_str()),
        Value::Array(items) => items_mention(items),
        Value::Object(members) => members_mention(members),
        _ => false,
    }
}

#[cycle(mentions)]
fn items_mention(items: &Vec<Value>) -> bool {
    for item in items {
        if mentions_standard(item) {
            return true;
        }
    }
    false
}

#[cycle(mentions)]
fn members_mention(members: &Map<String, Value>) -> bool {
    for (name, member) in members.iter() {
        let counts = name.as_str() != "$schema" || !member.is_string();
        if counts && mentions_standard(member) {
            return true;
        }
    }
    false
}
