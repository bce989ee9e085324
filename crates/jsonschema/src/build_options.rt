//! The options of a build in one call.
ghost use Rattle.std.specs.Prelude.{◌≡◌, ◌++◌, ◌∷◌, [], Some, max};
ghost use Rattle.schema_drafts.specs.KeywordViews.{draft_of};
ghost use Rattle.schema_traits.specs.Showing.{Yields};
ghost use Rattle.jsonschema.specs.BuildOptions.{no_options, with_engine};

use schema_engine::{Draft, OutOfMemory, ValidationOptions};
use serde_json::Value;
use standard_resolver::Document;
use std::alloc::Global;
use std::marker::Model;

/// How many targets of references are compiled one inside another, if nothing else is set. So many
/// targets that nest as deep as the JSON reader allows are compiled within a stack of 8 MiB.
const NESTED_LIMIT: usize = 4;

/// The options of a build, and the documents that references may lead to.
///
/// `options` creates them, each `with_..` sets one, and `build` ends the chain. What is not set, the
/// schema decides. The documents are borrowed until the build; the validator borrows nothing.
#[derive(Drop)]
pub struct BuildOptions<'a> {
    pub(crate) alloc: Global,
    pub(crate) engine: ValidationOptions,
    pub(crate) draft: Option<Draft>,
    pub(crate) checks: bool,
    pub(crate) uri: Option<String>,
    pub(crate) default_draft: Option<Draft>,
    pub(crate) documents: Vec<Document<'a>>,
}

impl<'a> Model for BuildOptions<'a> {
    ghost use Rattle.std.specs.Prelude.{◌≡◌, map, option_map, string_bytes};
    ghost use Rattle.std.specs.Coded.{codes};
    ghost use Rattle.serde_json.specs.contracts.value.Value as value;
    ghost use Rattle.schema_drafts.specs.KeywordViews.{draft_of};
    ghost use Rattle.standard_resolver.specs.DocumentViews.{given_of};
    ghost use Rattle.jsonschema.specs.BuildOptions.{BuildOptions};

    ghost Value = { BuildOptions };

    ghost coded = { Prim.hlevel (codes, value.the_row.coded) };

    ghost view = { λ o. record {
      engine = o.engine;
      uri = option_map string_bytes o.uri;
      default_draft = option_map draft_of o.default_draft;
      documents = map given_of o.documents.items;
    } };

    ghost invariant = { λ o. (option_map draft_of o.draft ≡ o.engine.draft) × (o.checks ≡ o.engine.checks) };
}

/// Returns options in which nothing is set. Does not allocate.
pub fn options<'a>(alloc: Global) -> BuildOptions<'a>
    ensures none { result ≡ no_options }
{
    BuildOptions {
        alloc,
        engine: ValidationOptions::new(alloc).with_nested_limit(NESTED_LIMIT),
        draft: None,
        checks: true,
        uri: None,
        default_draft: None,
        documents: Vec::new(alloc),
    }
}

impl<'a> BuildOptions<'a> {
    /// Sets the draft of the schema, whatever its `$schema` says.
    ///
    /// The schema is then checked by the meta-schema of this draft. Documents that do not name
    /// their draft are read in it too.
    pub fn with_draft(self, draft: Draft) -> BuildOptions<'a>
        ensures sets { result ≡ record self.entry {
          engine = record self.entry.engine { draft = Some (draft_of draft) };
          default_draft = Some (draft_of draft);
        } }
    {
        let mut options = self;
        options.engine = options.engine.with_draft(draft);
        options.draft = Some(draft);
        options.default_draft = Some(draft);
        options
    }

    /// Sets the draft of schemas that do not name theirs. By default it is 2020-12.
    pub fn with_default_draft(self, draft: Draft) -> BuildOptions<'a>
        ensures sets { result ≡ record self.entry { default_draft = Some (draft_of draft) } }
    {
        let mut options = self;
        options.default_draft = Some(draft);
        options
    }

    /// Adds a document, which references find under this URI.
    ///
    /// # Errors
    ///
    /// Out of memory; the options are dropped.
    pub fn with_document(
        self,
        uri: &str,
        document: &'a Value,
    ) -> Result<BuildOptions<'a>, OutOfMemory>
        ensures sets { Yields result (record self.entry {
          documents = self.entry.documents ++ record { uri = uri.now; value = document.now } ∷ [];
        }) }
    {
        let mut options = self;
        let uri = String::from_str(options.alloc, uri)?;
        options.documents.push(Document {
            uri,
            value: document,
        })?;
        Ok(options)
    }

    /// Sets the URI that the schema is found under, against which its references are resolved.
    ///
    /// By default it is `json-schema:///`. An identifier of the schema is resolved against it.
    ///
    /// # Errors
    ///
    /// Out of memory; the options are dropped.
    pub fn with_base_uri(self, uri: &str) -> Result<BuildOptions<'a>, OutOfMemory>
        ensures sets { Yields result (record self.entry { uri = Some uri.now }) }
    {
        let mut options = self;
        options.uri = Some(String::from_str(options.alloc, uri)?);
        Ok(options)
    }

    /// Sets whether the schema is checked by its meta-schema. By default it is.
    pub fn should_validate_schema(self, checked: bool) -> BuildOptions<'a>
        ensures sets { result ≡ with_engine self.entry (record self.entry.engine { checks = checked }) }
    {
        let mut options = self;
        options.engine = options.engine.should_validate_schema(checked);
        options.checks = checked;
        options
    }

    /// Sets whether formats are checked, whatever the draft and the vocabularies say.
    pub fn should_validate_formats(self, checked: bool) -> BuildOptions<'a>
        ensures sets { result ≡ with_engine self.entry (record self.entry.engine { formats = Some checked }) }
    {
        let mut options = self;
        options.engine = options.engine.should_validate_formats(checked);
        options
    }

    /// Declares a custom vocabulary, so that a schema may require it.
    ///
    /// # Errors
    ///
    /// Out of memory; the options are dropped.
    pub fn with_vocabulary(self, uri: &str) -> Result<BuildOptions<'a>, OutOfMemory>
        ensures sets { Yields result (with_engine self.entry
            (record self.entry.engine { declared = self.entry.engine.declared ++ uri.now ∷ [] })) }
    {
        let mut options = self;
        options.engine = options.engine.with_vocabulary(options.alloc, uri)?;
        Ok(options)
    }

    /// Sets how many distinct schemas may be reached. By default these are 65,536.
    pub fn with_node_limit(self, limit: usize) -> BuildOptions<'a>
        ensures sets { result ≡ with_engine self.entry (record self.entry.engine { limit = limit }) }
    {
        let mut options = self;
        options.engine = options.engine.with_node_limit(limit);
        options
    }

    /// Sets how many targets of references are compiled one inside another. By default these are 4.
    pub fn with_nested_limit(self, limit: usize) -> BuildOptions<'a>
        ensures sets { result ≡ with_engine self.entry (record self.entry.engine { nested = limit }) }
    {
        let mut options = self;
        options.engine = options.engine.with_nested_limit(limit);
        options
    }

    /// Sets how many runs a call makes at most for unfinished matches. By default these are 64.
    ///
    /// The first run counts too, so a limit of 0 is one of 1.
    pub fn with_run_limit(self, limit: u32) -> BuildOptions<'a>
        ensures sets { result ≡ with_engine self.entry (record self.entry.engine { runs = max limit 1 }) }
    {
        let mut options = self;
        options.engine = options.engine.with_run_limit(limit.max(1));
        options
    }

    /// Sets how many evaluations a call has open at once at most. By default there is no limit.
    ///
    /// So a call takes a bounded part of the stack, whatever the schema and the instance are.
    pub fn with_depth_limit(self, limit: usize) -> BuildOptions<'a>
        ensures sets { result ≡ with_engine self.entry (record self.entry.engine { depth = Some limit }) }
    {
        let mut options = self;
        options.engine = options.engine.with_depth_limit(limit);
        options
    }

    /// Sets how many steps a call takes at most. By default there is no limit.
    pub fn with_work_limit(self, limit: u64) -> BuildOptions<'a>
        ensures sets { result ≡ with_engine self.entry (record self.entry.engine { work = Some limit }) }
    {
        let mut options = self;
        options.engine = options.engine.with_work_limit(limit);
        options
    }
}
