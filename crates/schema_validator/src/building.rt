//! Building validators by the default options.
ghost use Rattle.std.specs.Prelude.{◌≡◌, IfOk, IfErr};
ghost use Rattle.serde_json.specs.View.{view};
ghost use Rattle.schema_validator.specs.BuildResults.{IsBuilt, IsRefused};
ghost use Rattle.schema_validator.specs.Handed.{default_nested, default_options, handed};

use crate::options::ValidationOptions;
use crate::validator::Validator;
use schema_keys::BuildError;
use schema_traits::{KeywordTable, Matcher, MetaValidators, Resolver, Validate};
use serde_json::Value;
use std::alloc::Global;

impl<K: Validate, M: Matcher> Validator<K, M> {
    /// Returns the default options.
    ///
    /// Schemas are checked, no vocabulary is declared, and nothing else is set. At most 65,536 keys
    /// may be reached, at most 8 targets of references are compiled one inside another, and a call
    /// makes at most 64 runs for unfinished matches.
    pub fn options(alloc: Global) -> ValidationOptions
        ensures defaults { result ≡ default_options }
    {
        ValidationOptions::new(alloc)
    }

    /// Builds a validator of a schema by the default options.
    ///
    /// It is the validator that `ValidationOptions::build` returns for them.
    ///
    /// # Errors
    ///
    /// The schema, or one that it reaches, is refused; the meta validators refuse it; more keys are
    /// reached than the limit; or out of memory. If there are several causes, the error names the
    /// first, as with `ValidationOptions::build`.
    pub fn new<S: Resolver, T: KeywordTable<K>, V: MetaValidators>(
        alloc: Global,
        schema: &Value,
        table: &T,
        resolver: &S,
        matcher: &M,
        metas: &V,
    ) -> Result<Validator<K, M>, BuildError>
        ensures built { IfOk result (IsBuilt (handed S.Resolver T.KeywordTable K.Validate M.Matcher.own
            resolver.now table.now matcher.now) (V.checked metas.now) default_options (view schema.now) default_nested) }
        ensures refused { IfErr result (IsRefused (handed S.Resolver T.KeywordTable K.Validate M.Matcher.own
            resolver.now table.now matcher.now) (V.checked metas.now) default_options (view schema.now)) }
    {
        Validator::<K, M>::options(alloc).build(alloc, schema, table, resolver, matcher, metas)
    }
}
