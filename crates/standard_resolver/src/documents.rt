//! The documents that a resolver holds.
ghost use Rattle.std.specs.Prelude.{◌≡◌, option_map, slice_get};
ghost use Rattle.schema_traits.specs.ResolverViews.{place_of};
ghost use Rattle.standard_resolver.specs.ResolverDocuments.{value_in};
ghost use Rattle.standard_resolver.specs.DocumentViews.{held};
ghost use Rattle.schema_traits.specs.Readings.{text_read, value_read};

use crate::places::value_after;
use schema_traits::SchemaPlace;
use serde_json::Value;

/// A document and the URI that it is supplied under.
///
/// A fragment of the URI is ignored.
#[derive(Drop)]
pub struct Document<'a> {
    pub uri: String,
    pub value: &'a Value,
}

/// Documents by their numbers. The root document has the number 0.
#[derive(Drop)]
pub struct Documents<'a> {
    pub uri: String,
    pub root: &'a Value,
    pub others: Vec<Document<'a>>,
}

impl<'a> Documents<'a> {
    fn document(&self, number: usize) -> Option<&'a Value>
        ensures document { value_read result ≡ option_map (λ d. d.value) (slice_get (held self.now) number) }
    {
        if number == 0 {
            return Some(self.root);
        }
        match self.others.get(number - 1) {
            Some(document) => Some(document.value),
            None => None,
        }
    }

    /// Returns the URI of the document with a number.
    pub fn uri_of(&self, number: usize) -> Option<&str>
        ensures uri { text_read result ≡ option_map (λ d. d.uri) (slice_get (held self.now) number) }
    {
        if number == 0 {
            return Some(self.uri.as_str());
        }
        match self.others.get(number - 1) {
            Some(document) => Some(document.uri.as_str()),
            None => None,
        }
    }

    /// Returns the value at a place.
    pub fn value_at(&self, place: &SchemaPlace) -> Option<&'a Value>
        ensures value { value_read result ≡ value_in (held self.now) (place_of place.now) }
    {
        match self.document(place.document) {
            Some(document) => value_after(document, place.path.steps()),
            None => None,
        }
    }
}
