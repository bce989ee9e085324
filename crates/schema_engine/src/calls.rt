//! Validating one instance by one schema, with the default options, in one call.
ghost use Rattle.std.specs.Prelude.{IfErr, IfOk};
ghost use Rattle.serde_json.specs.View.{view};
ghost use Rattle.schema_compiled.specs.Answers.{refusal_of};
ghost use Rattle.schema_validator.specs.BuildResults.{IsRefused};
ghost use Rattle.schema_validator.specs.Handed.{default_options, handed};
ghost use Rattle.schema_engine.specs.CallResults.{AreErrors, IsEvaluation, IsFirstError, IsVerdict};

use schema_keys::BuildError;
use schema_output::Evaluation;
use schema_reports::{ErrorIterator, ValidationError};
use schema_traits::{KeywordTable, Matcher, MetaValidators, Resolver, Validate};
use schema_validator::Validator;
use serde_json::Value;
use std::alloc::Global;

/// Returns whether a schema accepts the instance.
///
/// If the matcher leaves matches unfinished, the schema has to accept it under every outcome of
/// them, as with `Validator::is_valid`. If each keyword of what the root reaches is monotone and
/// the call decides, it accepts exactly if the greatest solution does, even if chains of references
/// return.
///
/// # Errors
///
/// The schema is refused, or out of memory.
pub fn is_valid<S: Resolver, T: KeywordTable<K>, K: Validate, M: Matcher, V: MetaValidators>(
    alloc: Global,
    schema: &Value,
    instance: &Value,
    table: &T,
    resolver: &S,
    matcher: &M,
    metas: &V,
) -> Result<bool, BuildError>
    ensures answer { IfOk result (IsVerdict (handed S.Resolver T.KeywordTable K.Validate M.Matcher.own
        resolver.now table.now matcher.now) (V.checked metas.now) default_options (view schema.now) (view instance.now)) }
    ensures refused { IfErr result (IsRefused (handed S.Resolver T.KeywordTable K.Validate M.Matcher.own
        resolver.now table.now matcher.now) (V.checked metas.now) default_options (view schema.now)) }
{
    let built = Validator::<K, M>::new(alloc, schema, table, resolver, matcher, metas)?;
    Ok(built.is_valid(alloc, instance)?)
}

/// Returns the first error as an inner `Err`, or an inner `Ok` if a schema accepts the instance.
///
/// It is the answer of `Validator::validate`.
///
/// # Errors
///
/// The schema is refused, or out of memory.
pub fn validate<'i, S: Resolver, T: KeywordTable<K>, K: Validate, M: Matcher, V: MetaValidators>(
    alloc: Global,
    schema: &Value,
    instance: &'i Value,
    table: &T,
    resolver: &S,
    matcher: &M,
    metas: &V,
) -> Result<Result<(), ValidationError<'i>>, BuildError>
    ensures answer { IfOk result (λ r. IsFirstError (handed S.Resolver T.KeywordTable K.Validate M.Matcher.own
        resolver.now table.now matcher.now) (V.checked metas.now) default_options (view schema.now) (view instance.now) (refusal_of r)) }
    ensures refused { IfErr result (IsRefused (handed S.Resolver T.KeywordTable K.Validate M.Matcher.own
        resolver.now table.now matcher.now) (V.checked metas.now) default_options (view schema.now)) }
{
    let validator = Validator::<K, M>::new(alloc, schema, table, resolver, matcher, metas)?;
    let answer = validator.validate(alloc, instance);
    drop(validator);
    Ok(answer?)
}

/// Returns all errors in order, or none if a schema accepts the instance.
///
/// They are the answer of `Validator::iter_errors`.
///
/// # Errors
///
/// The schema is refused, or out of memory.
pub fn iter_errors<'i, S: Resolver, T: KeywordTable<K>, K: Validate, M: Matcher, V: MetaValidators>(
    alloc: Global,
    schema: &Value,
    instance: &'i Value,
    table: &T,
    resolver: &S,
    matcher: &M,
    metas: &V,
) -> Result<ErrorIterator<'i>, BuildError>
    ensures answer { IfOk result (AreErrors (handed S.Resolver T.KeywordTable K.Validate M.Matcher.own
        resolver.now table.now matcher.now) (V.checked metas.now) default_options (view schema.now) (view instance.now)) }
    ensures refused { IfErr result (IsRefused (handed S.Resolver T.KeywordTable K.Validate M.Matcher.own
        resolver.now table.now matcher.now) (V.checked metas.now) default_options (view schema.now)) }
{
    let validator = Validator::<K, M>::new(alloc, schema, table, resolver, matcher, metas)?;
    let answer = validator.iter_errors(alloc, instance);
    drop(validator);
    Ok(answer?)
}

/// Returns the evaluation of the instance by a schema.
///
/// It is the answer of `Validator::evaluate`. If no chain of references returns and the run meets
/// no unfinished match, its units are the plain ones: those of the schema with each reference
/// looked up anew. Each error in a unit points at a keyword that the unit's evaluation path leads
/// to, and at a value inside the instance. If the run meets an unfinished match, it points as the
/// errors do that the units are made of.
///
/// # Errors
///
/// The schema is refused, or out of memory.
pub fn evaluate<S: Resolver, T: KeywordTable<K>, K: Validate, M: Matcher, V: MetaValidators>(
    alloc: Global,
    schema: &Value,
    instance: &Value,
    table: &T,
    resolver: &S,
    matcher: &M,
    metas: &V,
) -> Result<Evaluation, BuildError>
    ensures answer { IfOk result (IsEvaluation (handed S.Resolver T.KeywordTable K.Validate M.Matcher.own
        resolver.now table.now matcher.now) (V.checked metas.now) default_options (view schema.now) (view instance.now)) }
    ensures refused { IfErr result (IsRefused (handed S.Resolver T.KeywordTable K.Validate M.Matcher.own
        resolver.now table.now matcher.now) (V.checked metas.now) default_options (view schema.now)) }
{
    let validator = Validator::<K, M>::new(alloc, schema, table, resolver, matcher, metas)?;
    let answer = validator.evaluate(alloc, instance);
    drop(validator);
    Ok(answer?)
}
