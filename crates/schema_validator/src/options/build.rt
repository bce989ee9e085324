//! Building a validator.
ghost use Rattle.std.specs.Prelude.{IfOk, IfErr, OnOk};
ghost use Rattle.serde_json.specs.View.{view};
ghost use Rattle.schema_validator.specs.BuildResults.{IsBuilt, IsRefused};
ghost use Rattle.schema_validator.specs.Handed.{handed};
ghost use Rattle.schema_validator.specs.RootWords.{FailsIfChecked, PassesIfChecked};

use crate::compiled::of_compiled_within;
use crate::options::ValidationOptions;
use crate::options::root::root_key;
use crate::validator::{CallLimits, Validator};
use schema_compiler::compile;
use schema_keys::{BuildError, SchemaKey, validate_schema};
use schema_solver::Solver;
use schema_traits::{KeywordTable, Matcher, MetaValidators, Resolver, SchemaNode, Validate};
use serde_json::Value;
use std::alloc::Global;

impl ValidationOptions {
    /// Builds a validator of a schema.
    ///
    /// The resolver has to have the schema as the document under the root's base: that document is
    /// compiled, and the contract speaks of it. Unless the options say otherwise, the meta
    /// validators check the schema before it is compiled.
    ///
    /// If no chain of references returns, the validator means the plain meaning of schema and
    /// parts, and has its units. In any case each error that its nodes produce points at a keyword
    /// of the schema and at a value inside the instance, and so does each unit that has an error.
    ///
    /// If each keyword of what the root reaches is monotone, the nodes accept exactly if the
    /// greatest solution does, and so does each call that decides. The greatest solution is the
    /// largest set of pairs of a target and a place in which each pair accepts exactly if those of
    /// the set do. The validator has a solver, which does not give up if each keyword of its nodes
    /// says that it is monotone (`Validator::solve`).
    ///
    /// # Errors
    ///
    /// The root, or a schema that it reaches, is refused; the meta validators refuse a document of
    /// the schema; more keys are reached than the limit; or out of memory. The error names a cause.
    /// If there are several, it names the first of these: the draft, the base, the first refused
    /// document, the first vocabulary of the root that is not declared, and then what is compiled.
    pub fn build<S: Resolver, T: KeywordTable<K>, K: Validate, M: Matcher, V: MetaValidators>(
        &self,
        alloc: Global,
        schema: &Value,
        table: &T,
        resolver: &S,
        matcher: &M,
        metas: &V,
    ) -> Result<Validator<K, M>, BuildError>
        ensures built { IfOk result (IsBuilt (handed S.Resolver T.KeywordTable K.Validate M.Matcher.own
            resolver.now table.now matcher.now) (V.checked metas.now) self.now (view schema.now) self.now.nested) }
        ensures refused { IfErr result (IsRefused (handed S.Resolver T.KeywordTable K.Validate M.Matcher.own
            resolver.now table.now matcher.now) (V.checked metas.now) self.now (view schema.now)) }
    {
        self.build_nested(
            alloc,
            schema,
            table,
            resolver,
            matcher,
            metas,
            self.nested_limit,
        )
    }

    /// Like `build`, but with this limit on nested targets.
    ///
    /// Nested targets are targets of references that are compiled one inside another. The limit
    /// decides how much stack the build takes, and which edges of a reference cycle are guarded. If
    /// no chain of references returns, it changes no answer except the site of a failure. If each
    /// keyword is monotone, it changes no verdict of a call that decides.
    ///
    /// # Errors
    ///
    /// As for `build`: the limit decides nothing of that.
    #[tactic(auto, using(crate::proofs::RootRefusals::root_refuses, crate::proofs::RootRefusals::memory_refuses))]
    pub fn build_nested<
        S: Resolver,
        T: KeywordTable<K>,
        K: Validate,
        M: Matcher,
        V: MetaValidators,
    >(
        &self,
        alloc: Global,
        schema: &Value,
        table: &T,
        resolver: &S,
        matcher: &M,
        metas: &V,
        nested: usize,
    ) -> Result<Validator<K, M>, BuildError>
        ensures built { IfOk result (IsBuilt (handed S.Resolver T.KeywordTable K.Validate M.Matcher.own
            resolver.now table.now matcher.now) (V.checked metas.now) self.now (view schema.now) nested) }
        ensures refused { IfErr result (IsRefused (handed S.Resolver T.KeywordTable K.Validate M.Matcher.own
            resolver.now table.now matcher.now) (V.checked metas.now) self.now (view schema.now)) }
    {
        let root = root_key(alloc, resolver, self, schema)?;
        let draft = root.draft;
        self.check(alloc, resolver, metas, &root)?;
        let compiled = compile(alloc, resolver, table, &self.compiling, nested, root)?;
        let nodes = compiled.nodes;
        drop(compiled.keys);
        drop(compiled.reservations);
        let limits = CallLimits {
            runs: self.run_limit,
            work: self.work_limit,
            depth: self.depth_limit,
        };
        let finder = Solver::of(alloc, &nodes)?;
        let validator = of_compiled_within(
            table,
            resolver,
            matcher,
            nodes,
            SchemaNode(0),
            draft,
            limits,
            finder,
        )?;
        Ok(validator)
    }

    // Has the meta validators check the schema, if the options ask for it.
    fn check<S: Resolver, V: MetaValidators>(
        &self,
        alloc: Global,
        resolver: &S,
        metas: &V,
        root: &SchemaKey<S::State>,
    ) -> Result<(), BuildError>
        ensures accepted { OnOk result (PassesIfChecked (S.resolving resolver.now) (V.checked metas.now) self.now root.now) }
        ensures refused { IfErr result (FailsIfChecked (S.resolving resolver.now) (V.checked metas.now) self.now root.now) }
    {
        if !self.checks {
            return Ok(());
        }
        validate_schema(alloc, resolver, metas, root.draft, &root.place)
    }
}
