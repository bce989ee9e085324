//! Building the map of a document's validators.
//!
//! Each entry is compiled by itself, as a subschema of the root. The root's vocabularies are
//! checked once, and those of the entries are not checked.
ghost use Rattle.std.specs.Prelude.{◌≡◌, IfOk, IfErr, Some, string_bytes};
ghost use Rattle.serde_json.specs.View.{view};
ghost use Rattle.schema_keys.specs.Alone.{RefusesKeyAlone};
ghost use Rattle.schema_keys.specs.KeyViews.{key_of};
ghost use Rattle.schema_traits.specs.Showing.{Shows};
ghost use Rattle.schema_validator.specs.BuildResults.{IsMapBuilt, IsMapRefused};
ghost use Rattle.schema_validator.specs.Handed.{handed};
ghost use Rattle.schema_validator.specs.MapWords.{GivesCompiled, GivesEntry, GivesIfCompiled, GivesPut, HoldsEntries, HoldsRootKey};
ghost use Rattle.schema_validator.specs.MapWords.{IsMadeMap, RefusesForOneOf, RefusesMade, key_below, root_held};
ghost use Rattle.schema_validator.specs.Mapped.{name_of};

use crate::compiled::of_compiled_within;
use crate::map::ValidatorMap;
use crate::options::ValidationOptions;
use crate::options::root::root_key;
use crate::validator::{CallLimits, Validator};
use schema_compiler::{check_vocabularies, compile_subschema};
use schema_keys::{BuildError, Context, SchemaKey, schemas_in, validate_schema};
use schema_reports::OutOfMemory;
use schema_solver::Solver;
use schema_traits::{
    KeywordTable, Matcher, MetaValidators, Resolver, SchemaNode, SchemaPath, Validate,
};
use serde_json::Value;
use std::alloc::Global;

impl ValidationOptions {
    /// Builds a validator for each schema of a document that compiles by itself.
    ///
    /// These are the objects and booleans of the document, whatever their role in it. The map has
    /// the validator of a place under `#` followed by the JSON Pointer of the place. The root is
    /// compiled as by `build`, any other schema as a subschema of the root, at the empty location.
    /// A schema that does not compile is left out, even the root. Each validator has the root's
    /// draft. The meta validators check the schema whatever the options say. Each entry takes a
    /// compilation of its own.
    ///
    /// # Errors
    ///
    /// The draft or the base of the root is refused; a meta validator refuses the schema; the root
    /// requires a custom vocabulary that is not declared; an entry reaches more keys than the
    /// limit; or out of memory. Then there is no map. If there are several causes, the error names
    /// the first in this order, and the first refused document or vocabulary.
    #[tactic(auto, using(crate::proofs::RootRefusals::root_refuses_map))]
    pub fn build_map<S: Resolver, T: KeywordTable<K>, K: Validate, M: Matcher, V: MetaValidators>(
        &self,
        alloc: Global,
        schema: &Value,
        table: &T,
        resolver: &S,
        matcher: &M,
        metas: &V,
    ) -> Result<ValidatorMap<K, M>, BuildError>
        ensures built { IfOk result (IsMapBuilt (handed S.Resolver T.KeywordTable K.Validate M.Matcher.own
            resolver.now table.now matcher.now) (V.checked metas.now) self.now (view schema.now)) }
        ensures refused { IfErr result (IsMapRefused (handed S.Resolver T.KeywordTable K.Validate M.Matcher.own
            resolver.now table.now matcher.now) (V.checked metas.now) self.now (view schema.now)) }
    {
        let root = root_key(alloc, resolver, self, schema)?;
        let building = MapBuilding {
            alloc,
            schema,
            options: self,
            table,
            resolver,
            matcher,
            root: &root,
        };
        building.checked_map(metas)
    }
}

/// The input of a map's build, with the root's key.
#[derive_where(Clone, Copy)]
struct MapBuilding<'p, S: Resolver, T, M> {
    alloc: Global,
    schema: &'p Value,
    options: &'p ValidationOptions,
    table: &'p T,
    resolver: &'p S,
    matcher: &'p M,
    root: &'p SchemaKey<S::State>,
}

impl<'p, S: Resolver, T, M: Matcher> MapBuilding<'p, S, T, M> {
    /// Checks the schema and the root's vocabularies, and returns the map.
    #[tactic(auto, using(crate::proofs::RootRefusals::memory_refuses_map))]
    fn checked_map<K: Validate, V: MetaValidators>(
        &self,
        metas: &V,
    ) -> Result<ValidatorMap<K, M>, BuildError>
    where
        T: KeywordTable<K>,
        requires root { HoldsRootKey S.Resolver self.now }
        ensures made { IfOk result (IsMadeMap S.Resolver T.KeywordTable K.Validate M.Matcher.own self.now (V.checked metas.now)) }
        ensures refused { IfErr result (RefusesMade S.Resolver T.KeywordTable K.Validate M.Matcher.own self.now (V.checked metas.now)) }
    {
        let options = self.options;
        validate_schema(
            self.alloc,
            self.resolver,
            metas,
            self.root.draft,
            &self.root.place,
        )?;
        check_vocabularies::<S, K, T>(
            self.alloc,
            self.resolver,
            self.table,
            &options.compiling,
            self.root,
        )?;
        match self.resolver.value(&self.root.place) {
            Some(document) => {
                let paths = schemas_in(self.alloc, document)?;
                self.map_of(paths.as_slice())
            }
            None => self.map_of(&[]),
        }
    }

    /// Returns a copy of the root's key.
    fn root_again(&self) -> Result<SchemaKey<S::State>, OutOfMemory>
        ensures key { Shows (key_of S.point) result (root_held S.Resolver self.now) }
        ensures draft { IfOk result (λ k. k.draft ≡ self.now.root.now.draft) }
    {
        Ok(SchemaKey {
            place: self.root.place.clone()?,
            state: self.root.state.clone()?,
            draft: self.root.draft,
            vocabularies: self.root.vocabularies.clone()?,
            location: self.root.location.clone()?,
            resource_base: self.root.resource_base.clone()?,
            resource_start: self.root.resource_start,
        })
    }

    /// Returns the key of the root, or of the subschema at a path below it.
    fn key_at(&self, path: &SchemaPath) -> Result<SchemaKey<S::State>, BuildError>
        ensures key { IfOk result (λ k. key_below S.Resolver self.now path.now ≡ Some (key_of S.point k)) }
        ensures refused { IfErr result (RefusesKeyAlone (key_below S.Resolver self.now path.now)) }
    {
        if path.len() == 0 {
            return Ok(self.root_again()?);
        }
        let options = self.options;
        let context = Context {
            alloc: self.alloc,
            resolver: self.resolver,
            options: &options.compiling,
            key: self.root,
        };
        context.subschema_alone(path)
    }

    /// Returns the validator compiled from a key, in the root's draft.
    fn compiled<K: Validate>(&self, key: SchemaKey<S::State>) -> Result<Validator<K, M>, BuildError>
    where
        T: KeywordTable<K>,
        requires root { HoldsRootKey S.Resolver self.now }
        ensures { GivesCompiled S.Resolver T.KeywordTable K.Validate M.Matcher.own self.now key result }
    {
        let options = self.options;
        let compiled = compile_subschema(
            self.alloc,
            self.resolver,
            self.table,
            &options.compiling,
            options.nested_limit,
            key,
        )?;
        let draft = self.root.draft;
        let nodes = compiled.nodes;
        drop(compiled.keys);
        drop(compiled.reservations);
        let finder = Solver::of(self.alloc, &nodes)?;
        let limits = CallLimits {
            runs: options.run_limit,
            work: options.work_limit,
            depth: options.depth_limit,
        };
        let validator = of_compiled_within(
            self.table,
            self.resolver,
            self.matcher,
            nodes,
            SchemaNode(0),
            draft,
            limits,
            finder,
        )?;
        Ok(validator)
    }

    /// Returns the validator of the schema at a path below the root.
    fn entry<K: Validate>(&self, path: &SchemaPath) -> Result<Validator<K, M>, BuildError>
    where
        T: KeywordTable<K>,
        requires root { HoldsRootKey S.Resolver self.now }
        ensures { GivesEntry S.Resolver T.KeywordTable K.Validate M.Matcher.own self.now path.now result }
    {
        let key = self.key_at(path)?;
        self.compiled(key)
    }

    /// Returns the validator at a path; `None` if that schema does not compile.
    fn entry_if_compiled<K: Validate>(
        &self,
        path: &SchemaPath,
    ) -> Result<Option<Validator<K, M>>, BuildError>
    where
        T: KeywordTable<K>,
        requires root { HoldsRootKey S.Resolver self.now }
        ensures { GivesIfCompiled S.Resolver T.KeywordTable K.Validate M.Matcher.own self.now path.now result }
    {
        match self.entry(path) {
            Ok(validator) => Ok(Some(validator)),
            Err(error) => match error {
                BuildError::OutOfMemory => Err(BuildError::OutOfMemory),
                BuildError::NodeLimit(limit) => Err(BuildError::NodeLimit(limit)),
                _ => Ok(None),
            },
        }
    }

    /// Returns the name of a place: `#` and its pointer.
    fn name_of(&self, path: &SchemaPath) -> Result<String, OutOfMemory>
        ensures name { Shows string_bytes result (name_of path.now) }
    {
        let pointer = path.pointer(self.alloc)?;
        let mut name = String::from_str(self.alloc, "#")?;
        name.push_str(pointer.as_str())?;
        Ok(name)
    }

    /// Adds the validator at a path to the map, if that schema compiles.
    fn put<K: Validate>(
        &self,
        map: &mut ValidatorMap<K, M>,
        path: &SchemaPath,
    ) -> Result<(), BuildError>
    where
        T: KeywordTable<K>,
        requires root { HoldsRootKey S.Resolver self.now }
        ensures { GivesPut S.Resolver T.KeywordTable K.Validate M.Matcher.own self.now path.now map.old map.new result }
    {
        if let Some(validator) = self.entry_if_compiled(path)? {
            let name = self.name_of(path)?;
            map.insert(name, validator)?;
        }
        Ok(())
    }

    /// Returns the map of the schemas at these paths.
    fn map_of<K: Validate>(&self, paths: &[SchemaPath]) -> Result<ValidatorMap<K, M>, BuildError>
    where
        T: KeywordTable<K>,
        requires root { HoldsRootKey S.Resolver self.now }
        ensures holds { IfOk result (HoldsEntries S.Resolver T.KeywordTable K.Validate M.Matcher.own self.now paths.now) }
        ensures refused { IfErr result (RefusesForOneOf S.Resolver T.KeywordTable K.Validate M.Matcher.own self.now paths.now) }
    {
        let mut map = ValidatorMap::new(self.alloc);
        for path in paths {
            self.put(&mut map, path)?;
        }
        Ok(map)
    }
}
