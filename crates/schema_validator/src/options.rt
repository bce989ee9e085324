//! The options of a build.
ghost use Rattle.std.specs.Prelude.{◌≡◌, ◌≤◌, ◌++◌, ◌∷◌, [], Some};
ghost use Rattle.schema_drafts.specs.KeywordViews.{draft_of};
ghost use Rattle.schema_traits.specs.Showing.{Yields};
ghost use Rattle.schema_validator.specs.Handed.{default_options};

use schema_drafts::Draft;
use schema_keys::CompileOptions;
use schema_reports::OutOfMemory;
use std::alloc::Global;
use std::marker::Model;
use unfinished_search::MAX_ASSUMED_RUNS;

pub mod build;
pub mod map;
pub mod root;

/// The default limit on the keys that a schema may reach.
const DEFAULT_NODE_LIMIT: usize = 65_536;

/// The default limit on the targets of references that are compiled one inside another.
const DEFAULT_NESTED_LIMIT: usize = 8;

/// How to compile a schema, and how much a call of its validator may do.
///
/// For the build: the draft and the base of the root, whether the meta validators check the schema,
/// whether formats are checked, which custom vocabularies are declared, how many keys may be
/// reached, and how many targets of references are compiled one inside another. For a call: how
/// many runs it makes at most for unfinished matches, how many steps it takes at most, and how many
/// evaluations it has open at once at most, if there are such limits. The schema and the resolver
/// decide whatever is not set.
#[derive(Drop)]
pub struct ValidationOptions {
    draft: Option<Draft>,
    base: Option<String>,
    compiling: CompileOptions,
    checks: bool,
    run_limit: u32,
    work_limit: Option<u64>,
    depth_limit: Option<usize>,
    nested_limit: usize,
}

impl Model for ValidationOptions {
    ghost use Rattle.std.specs.Prelude.{map, option_map, string_bytes, ◌≤◌};
    ghost use Rattle.schema_drafts.specs.KeywordViews.{draft_of};
    ghost use Rattle.schema_validator.specs.Handed.{Options};

    ghost Value = { Options };

    ghost view = { λ o. record {
      draft = option_map draft_of o.draft;
      base = option_map string_bytes o.base;
      formats = o.compiling.formats;
      declared = map string_bytes o.compiling.declared.items;
      limit = o.compiling.node_limit;
      checks = o.checks;
      runs = o.run_limit;
      work = o.work_limit;
      depth = o.depth_limit;
      nested = o.nested_limit;
    } };

    ghost invariant = { λ o. 1 ≤ o.run_limit };
}

impl ValidationOptions {
    /// Returns the default options.
    ///
    /// Schemas are checked, no vocabulary is declared, and nothing else is set. At most 65,536 keys
    /// may be reached, at most 8 targets of references are compiled one inside another, and a call
    /// makes at most 64 runs for unfinished matches.
    pub fn new(alloc: Global) -> ValidationOptions
        ensures defaults { result ≡ default_options }
    {
        ValidationOptions {
            draft: None,
            base: None,
            compiling: CompileOptions {
                formats: None,
                declared: Vec::new(alloc),
                node_limit: DEFAULT_NODE_LIMIT,
            },
            checks: true,
            run_limit: MAX_ASSUMED_RUNS,
            work_limit: None,
            depth_limit: None,
            nested_limit: DEFAULT_NESTED_LIMIT,
        }
    }

    /// Sets the draft of the root, whatever the schema says.
    pub fn with_draft(self, draft: Draft) -> ValidationOptions
        ensures draft { result ≡ record self { draft = Some (draft_of draft) } }
    {
        let mut options = self;
        options.draft = Some(draft);
        options
    }

    /// Sets the base of the root, whatever identifier the schema has.
    ///
    /// # Errors
    ///
    /// Out of memory; the options are dropped.
    pub fn with_base_uri(self, alloc: Global, uri: &str) -> Result<ValidationOptions, OutOfMemory>
        ensures base { Yields result (record self { base = Some uri.now }) }
    {
        let mut options = self;
        options.base = Some(String::from_str(alloc, uri)?);
        Ok(options)
    }

    /// Sets how many keys may be reached; a schema that reaches one more is refused.
    pub fn with_node_limit(self, limit: usize) -> ValidationOptions
        ensures limit { result ≡ record self { limit = limit } }
    {
        let mut options = self;
        options.compiling.node_limit = limit;
        options
    }

    /// Sets how many runs a call makes at most for unfinished matches.
    ///
    /// The first run counts as one. A call makes further runs if a run meets matches that stay
    /// unfinished. With k such matches the call decides if `limit` is 2 ^ (k + 1) - 1 or more. Past
    /// the limit `is_valid` returns `false`, and the other calls return the failure.
    ///
    /// If the matcher says that it finishes every match, `validate` and `iter_errors` first look
    /// for the verdict. That takes one more run, or a solver's, and it does not count.
    pub fn with_run_limit(self, limit: u32) -> ValidationOptions
        requires some { 1 ≤ limit }
        ensures runs { result ≡ record self { runs = limit } }
    {
        let mut options = self;
        options.run_limit = limit;
        options
    }

    /// Sets how many steps a call takes at most.
    ///
    /// Each evaluation of a node at a place counts as one step, in all runs of the call, and so
    /// does each pair that a solver begins. A call that would take one more step stops: `is_valid`
    /// returns `false`, and the other calls return one failure, with the text `The limit of N steps
    /// was reached`. By default there is no limit.
    pub fn with_work_limit(self, limit: u64) -> ValidationOptions
        ensures work { result ≡ record self { work = Some limit } }
    {
        let mut options = self;
        options.work_limit = Some(limit);
        options
    }

    /// Sets how many evaluations a call has open at once at most.
    ///
    /// An evaluation is open until it has an answer: of a node that a run asks, and of what a solver
    /// begins in answer to a keyword's question, for a reference beside other keywords, and for a
    /// pair. So the limit bounds the stack that a call takes. A call that would open one more stops:
    /// `is_valid` returns `false`, and the other calls return one failure, with the text `The limit
    /// of N nested evaluations was reached`. By default there is no limit.
    pub fn with_depth_limit(self, limit: usize) -> ValidationOptions
        ensures depth { result ≡ record self { depth = Some limit } }
    {
        let mut options = self;
        options.depth_limit = Some(limit);
        options
    }

    /// Sets how many targets of references are compiled one inside another.
    ///
    /// The limit decides how much stack the build takes, and which edges of a reference cycle are
    /// guarded. If no chain of references returns, it changes no answer except the site of a
    /// failure. If each keyword is monotone, it changes no verdict of a call that decides.
    pub fn with_nested_limit(self, limit: usize) -> ValidationOptions
        ensures nested { result ≡ record self { nested = limit } }
    {
        let mut options = self;
        options.nested_limit = limit;
        options
    }

    /// Sets whether the meta validators check the schema. By default they do.
    pub fn should_validate_schema(self, checked: bool) -> ValidationOptions
        ensures checks { result ≡ record self { checks = checked } }
    {
        let mut options = self;
        options.checks = checked;
        options
    }

    /// Sets whether formats are checked, whatever the draft and the vocabularies say.
    pub fn should_validate_formats(self, checked: bool) -> ValidationOptions
        ensures formats { result ≡ record self { formats = Some checked } }
    {
        let mut options = self;
        options.compiling.formats = Some(checked);
        options
    }

    /// Declares the custom vocabulary with this URI, after those already declared.
    ///
    /// A schema may then require it.
    ///
    /// # Errors
    ///
    /// Out of memory; the options are dropped.
    pub fn with_vocabulary(self, alloc: Global, uri: &str) -> Result<ValidationOptions, OutOfMemory>
        ensures declared { Yields result (record self { declared = self.declared ++ uri.now ∷ [] }) }
    {
        let mut options = self;
        let name = String::from_str(alloc, uri)?;
        options.compiling.declared.push(name)?;
        Ok(options)
    }
}
