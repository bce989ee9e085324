//! Building a validator from sources, and from options.
ghost use Rattle.std.specs.Prelude.{◌≡◌, ◌⊎◌, [], IfErr, IfOk, OnOk, is_ok, option_map, true};
ghost use Rattle.serde_json.specs.View.{view};
ghost use Rattle.standard_subschemas.specs.declared.rules.Rule.TheVariants.{Standard};
ghost use Rattle.schema_keys.specs.declared.error.BuildError.TheVariants.{OutOfMemory};
ghost use Rattle.schema_traits.specs.Showing.{Yields};
ghost use Rattle.schema_drafts.specs.KeywordViews.{draft_of};
ghost use Rattle.schema_traits.specs.MatcherViews.{FinishesEach};
ghost use Rattle.pattern_matcher.specs.PatternMatching.{pattern_matcher};
ghost use Rattle.jsonschema.specs.Built.{IsBuilt, IsBuiltOf, IsRefused, IsRefusedOf, matcher_of};
ghost use Rattle.jsonschema.specs.Built.{AreStandard, EachMeans, IsBuiltFrom, RefusesFrom};
ghost use Rattle.jsonschema.specs.Checked.{IsBuiltWith, IsChecked, IsNoValidatorOf, IsValidatorOf, RefusesChecked};
ghost use Rattle.jsonschema.specs.BuildOptions.{HasNeeded, if_known, needed_draft, root_draft_of, sources_of};
ghost use Rattle.jsonschema.specs.Refusing.{IsUnrefused, TellsOf};
ghost use Rattle.jsonschema.specs.Sources.{default_draft_of, options_by, set_draft, uri_of};
ghost use Rattle.standard_resolver.specs.ResolverHolds.{Customs, Defaults, Drafts, GoesBy, Holds, IsUnder, ListsVocabularies, Others, RootsIn};

use crate::build_options::BuildOptions;
use crate::error::{BuildError, error_of, unrefused};
use crate::mentions::mentions_standard;
use crate::sources::Sources;
use pattern_matcher::PatternMatcher;
use schema_engine::{
    BuildError as EngineError, Draft, KeywordTable, MetaValidators, OutOfMemory, Resolver,
    Validate, ValidationOptions, Validator, VocabularySet,
};
use serde_json::Value;
use standard_dialects::standard_draft;
use standard_keywords::{StandardKeyword, StandardTable};
use standard_meta::{MetaDocuments, MetaError, MetaSchemas};
use standard_resolver::{Document, DocumentResolver, Rule};
use standard_subschemas::{names_draft_inside, text_member};
use std::alloc::Global;

/// A validator with the standard's keywords and regular expressions.
pub type StandardValidator = Validator<StandardKeyword, PatternMatcher>;

/// A validator that was built, and the matcher that it was built with.
#[derive(Drop)]
pub(crate) struct Built {
    pub(crate) validator: StandardValidator,
    pub(crate) matcher: PatternMatcher,
    ghost finishes: { FinishesEach (pattern_matcher matcher) → FinishesEach (pattern_matcher validator.matcher) },
}

/// Returns the validator alone.
pub(crate) fn validator_in(built: Built) -> StandardValidator
    ensures validator { result ≡ built.validator }
{
    built.validator
}

/// Returns the schema's URI: the one that is set, or else `json-schema:///`.
fn uri_of<'s>(sources: &'s Sources<'_>) -> &'s str
    ensures uri { result.now ≡ uri_of sources.now }
{
    match &sources.uri {
        Some(uri) => uri.as_str(),
        None => "json-schema:///",
    }
}

/// Returns the draft that is set for the schema, or else the default one, if the schema names none.
fn set_draft(sources: &Sources<'_>) -> Option<Draft>
    ensures draft { option_map draft_of result ≡ set_draft sources.now }
{
    match sources.root_draft {
        Some(draft) => Some(draft),
        None => match text_member(sources.schema, "$schema") {
            Some(_) => None,
            None => sources.draft,
        },
    }
}

/// Returns the options with the URI and the draft of the sources.
fn options_for(
    alloc: Global,
    options: ValidationOptions,
    sources: &Sources<'_>,
) -> Result<ValidationOptions, OutOfMemory>
    ensures options { Yields result (options_by sources.now options) }
{
    let mut options = options;
    if let Some(draft) = set_draft(sources) {
        options = options.with_draft(draft);
    }
    options.with_base_uri(alloc, uri_of(sources))
}

/// The resolver of the schema and the documents.
fn resolver_of<'a>(alloc: Global, sources: Sources<'a>) -> Result<DocumentResolver<'a>, OutOfMemory>
    ensures rule { GoesBy result Standard }
    ensures uri { IsUnder result (uri_of sources.entry) }
    ensures document { Holds result sources.entry.schema }
    ensures others { Others result sources.entry.documents }
    ensures root_draft { RootsIn result sources.entry.root_draft }
    ensures draft { Defaults result (default_draft_of sources.entry) }
    ensures drafts { Drafts result [] }
    ensures listed { ListsVocabularies result }
    ensures custom { Customs result [] }
{
    let draft = sources.draft.unwrap_or(Draft::Draft202012);
    let root = Document {
        uri: String::from_str(alloc, uri_of(&sources))?,
        value: sources.schema,
    };
    DocumentResolver::in_draft(
        alloc,
        Rule::Standard,
        sources.root_draft,
        draft,
        root,
        sources.documents,
        VocabularySet::new(alloc),
    )
}

/// The matcher of the patterns of the schema and the documents.
fn matcher_of(alloc: Global, sources: &Sources<'_>) -> Result<PatternMatcher, OutOfMemory>
    ensures matcher { Yields result (matcher_of sources.now) }
{
    let values = sources.values(alloc)?;
    PatternMatcher::for_readable_only(alloc, values.as_slice())
}

/// Builds a validator of a schema that the resolver holds.
fn build_by<'p, V: MetaValidators>(
    alloc: Global,
    schema: &Value,
    resolver: &DocumentResolver<'p>,
    matcher: &PatternMatcher,
    metas: &V,
    options: &ValidationOptions,
) -> Result<StandardValidator, EngineError>
    ensures built { IfOk result (IsBuilt ⟦<DocumentResolver<'p> as Resolver>⟧ ⟦<StandardTable as KeywordTable<StandardKeyword>>⟧
        ⟦<StandardKeyword as Validate>⟧ resolver.now matcher.now (V.checked metas.now) options.now (view schema.now)) }
    ensures finishes { IfOk result (λ v. FinishesEach (pattern_matcher matcher.now) → FinishesEach (pattern_matcher v.matcher)) }
    ensures refused { IfErr result (λ e. (e ≡ OutOfMemory) ⊎ IsRefused ⟦<DocumentResolver<'p> as Resolver>⟧
        ⟦<StandardTable as KeywordTable<StandardKeyword>>⟧ ⟦<StandardKeyword as Validate>⟧ resolver.now matcher.now (V.checked metas.now)
        options.now (view schema.now) e) }
{
    let table = StandardTable::new();
    options.build(alloc, schema, &table, resolver, matcher, metas)
}

/// Builds a validator of a schema, with the standard's keywords.
///
/// Each pattern of the sources is read once. The meta validators check the schema first, unless the
/// options turn that off.
fn build_of<'p, V: MetaValidators>(
    alloc: Global,
    sources: Sources<'p>,
    metas: &V,
    options: ValidationOptions,
) -> Result<Built, EngineError>
    ensures built { IfOk result (λ b. IsBuiltOf ⟦<DocumentResolver<'p> as Resolver>⟧ ⟦<StandardTable as KeywordTable<StandardKeyword>>⟧
        ⟦<StandardKeyword as Validate>⟧ (V.checked metas.now) options sources.entry b.validator) }
    ensures refused { IfErr result (λ e. (e ≡ OutOfMemory) ⊎ IsRefusedOf ⟦<DocumentResolver<'p> as Resolver>⟧
        ⟦<StandardTable as KeywordTable<StandardKeyword>>⟧ ⟦<StandardKeyword as Validate>⟧ (V.checked metas.now)
        options sources.entry e) }
{
    let schema = sources.schema;
    let matcher = matcher_of(alloc, &sources)?;
    let options = options_for(alloc, options, &sources)?;
    let resolver = resolver_of(alloc, sources)?;
    match build_by(alloc, schema, &resolver, &matcher, metas, &options) {
        Ok(validator) => Ok(Built { validator, matcher }),
        Err(refused) => Err(refused),
    }
}

/// Returns the sources that options and a schema make.
fn sources_of<'a>(options: BuildOptions<'a>, schema: &'a Value) -> (Sources<'a>, ValidationOptions)
    ensures sources { result.0 ≡ sources_of options.entry schema.now }
    ensures engine { result.1 ≡ options.entry.engine }
{
    let sources = Sources {
        schema,
        uri: options.uri,
        root_draft: options.draft,
        draft: options.default_draft,
        documents: options.documents,
    };
    (sources, options.engine)
}

/// Returns the engine's refusal as an error of this library.
fn told(built: Result<Built, EngineError>) -> Result<Built, BuildError>
    ensures same { IfOk result (λ b. built ≡ Ok b) }
    ensures told { IfErr result (TellsOf built) }
{
    match built {
        Ok(built) => Ok(built),
        Err(refused) => Err(error_of(refused)),
    }
}

/// Returns the fault of the meta-schemas as an error of this library.
fn told_of_metas(compiled: Result<(), MetaError>) -> Result<(), BuildError>
    ensures same { OnOk result (is_ok compiled ≡ true) }
    ensures unrefused { IfErr result IsUnrefused }
{
    match compiled {
        Ok(()) => Ok(()),
        Err(fault) => Err(unrefused(fault)),
    }
}

/// Returns the draft, if it is known.
fn if_known(draft: Draft) -> Option<Draft>
    ensures known { option_map draft_of result ≡ if_known (draft_of draft) }
{
    match draft {
        Draft::Draft4 => Some(draft),
        Draft::Draft6 => Some(draft),
        Draft::Draft7 => Some(draft),
        Draft::Draft201909 => Some(draft),
        Draft::Draft202012 => Some(draft),
        Draft::Unknown => None,
    }
}

/// Compiles the meta-schema of a draft, or those of all drafts.
fn compile_needed(
    alloc: Global,
    metas: &mut MetaSchemas,
    needed: Option<Draft>,
) -> Result<(), BuildError>
    ensures needed { OnOk result (HasNeeded (option_map draft_of needed) metas.new.checkers) }
    ensures unrefused { IfErr result IsUnrefused }
    ensures each { EachMeans ⟦<DocumentResolver<'static> as Resolver>⟧ ⟦<StandardTable as KeywordTable<StandardKeyword>>⟧
        ⟦<StandardKeyword as Validate>⟧ metas.old.checkers
        → EachMeans ⟦<DocumentResolver<'static> as Resolver>⟧ ⟦<StandardTable as KeywordTable<StandardKeyword>>⟧
        ⟦<StandardKeyword as Validate>⟧ metas.new.checkers }
{
    match needed {
        Some(draft) => told_of_metas(metas.compile(alloc, draft)),
        None => told_of_metas(metas.compile_each(alloc)),
    }
}

impl<'a> BuildOptions<'a> {
    /// Returns the draft of the root of a schema.
    fn root_draft(&self, schema: &Value) -> Draft
        ensures root { draft_of result ≡ root_draft_of self.now (view schema.now) }
    {
        match self.draft {
            Some(draft) => draft,
            None => match text_member(schema, "$schema") {
                Some(uri) => standard_draft(uri),
                None => self.default_draft.unwrap_or(Draft::Draft202012),
            },
        }
    }

    /// Returns the draft whose meta-schema the check of a schema needs.
    ///
    /// Returns `None` if it may need those of all drafts.
    fn needed_draft(&self, schema: &Value) -> Option<Draft>
        ensures needed { option_map draft_of result ≡ needed_draft self.now (view schema.now) }
    {
        if names_draft_inside(schema) {
            return None;
        }
        if_known(self.root_draft(schema))
    }

    /// Compiles the meta-schemas that the check of a schema may need, if it is checked.
    fn prepare(&self, metas: &mut MetaSchemas, schema: &Value) -> Result<(), BuildError>
        ensures needed { OnOk result (self.now.engine.checks ≡ true
            → HasNeeded (needed_draft self.now (view schema.now)) metas.new.checkers) }
        ensures unrefused { IfErr result IsUnrefused }
        ensures each { EachMeans ⟦<DocumentResolver<'static> as Resolver>⟧ ⟦<StandardTable as KeywordTable<StandardKeyword>>⟧
            ⟦<StandardKeyword as Validate>⟧ metas.old.checkers
            → EachMeans ⟦<DocumentResolver<'static> as Resolver>⟧ ⟦<StandardTable as KeywordTable<StandardKeyword>>⟧
            ⟦<StandardKeyword as Validate>⟧ metas.new.checkers }
    {
        if !self.checks {
            return Ok(());
        }
        compile_needed(self.alloc, metas, self.needed_draft(schema))
    }

    /// Returns whether the schema or a document may refer to the standard's meta-schemas.
    fn mentions_standard(&self, schema: &Value) -> bool {
        if mentions_standard(schema) {
            return true;
        }
        for document in &self.documents {
            if mentions_standard(document.value) {
                return true;
            }
        }
        false
    }

    /// Builds from the schema and the documents of these options alone.
    fn build_alone<V: MetaValidators>(
        self,
        metas: &V,
        schema: &'a Value,
    ) -> Result<Built, BuildError>
        ensures built { IfOk result (λ b. IsBuiltFrom ⟦<DocumentResolver<'a> as Resolver>⟧ ⟦<StandardTable as KeywordTable<StandardKeyword>>⟧
            ⟦<StandardKeyword as Validate>⟧ (V.checked metas.now) self.entry schema.now b.validator) }
        ensures refused { IfErr result (RefusesFrom ⟦<DocumentResolver<'a> as Resolver>⟧ ⟦<StandardTable as KeywordTable<StandardKeyword>>⟧
            ⟦<StandardKeyword as Validate>⟧ (V.checked metas.now) self.entry schema.now) }
    {
        let alloc = self.alloc;
        let (sources, engine) = sources_of(self, schema);
        told(build_of(alloc, sources, metas, engine))
    }

    /// Builds from the schema, the documents of these options, and the standard's meta-schemas.
    fn build_among<V: MetaValidators>(
        self,
        metas: &V,
        schema: &'a Value,
        documents: &'a MetaDocuments,
    ) -> Result<Built, BuildError>
        ensures built { IfOk result (λ b. AreStandard documents.now → IsBuiltFrom ⟦<DocumentResolver<'a> as Resolver>⟧ ⟦<StandardTable as KeywordTable<StandardKeyword>>⟧
            ⟦<StandardKeyword as Validate>⟧ (V.checked metas.now) self.entry schema.now b.validator) }
        ensures refused { IfErr result (λ e. AreStandard documents.now → RefusesFrom ⟦<DocumentResolver<'a> as Resolver>⟧ ⟦<StandardTable as KeywordTable<StandardKeyword>>⟧
            ⟦<StandardKeyword as Validate>⟧ (V.checked metas.now) self.entry schema.now e) }
    {
        let alloc = self.alloc;
        let (sources, engine) = sources_of(self, schema);
        match sources.with_meta_schemas(alloc, documents) {
            Ok(sources) => told(build_of(alloc, sources, metas, engine)),
            Err(_refused) => Err(BuildError::OutOfMemory),
        }
    }

    /// Reads the standard's meta-schemas, and builds among them.
    fn build_beside<V: MetaValidators>(
        self,
        metas: &V,
        schema: &'a Value,
    ) -> Result<Built, BuildError>
        ensures built { IfOk result (λ b. IsBuiltFrom ⟦<DocumentResolver<'a> as Resolver>⟧ ⟦<StandardTable as KeywordTable<StandardKeyword>>⟧
            ⟦<StandardKeyword as Validate>⟧ (V.checked metas.now) self.entry schema.now b.validator) }
        ensures refused { IfErr result (RefusesFrom ⟦<DocumentResolver<'a> as Resolver>⟧ ⟦<StandardTable as KeywordTable<StandardKeyword>>⟧
            ⟦<StandardKeyword as Validate>⟧ (V.checked metas.now) self.entry schema.now) }
    {
        match MetaDocuments::new(self.alloc) {
            Ok(documents) => {
                let built = self.build_among(metas, schema, &documents);
                drop(documents);
                built
            }
            Err(fault) => Err(unrefused(fault)),
        }
    }

    /// Builds as `build_by` does.
    pub(crate) fn build_any<V: MetaValidators>(
        self,
        metas: &V,
        schema: &'a Value,
    ) -> Result<Built, BuildError>
        ensures built { IfOk result (λ b. IsBuiltFrom ⟦<DocumentResolver<'a> as Resolver>⟧ ⟦<StandardTable as KeywordTable<StandardKeyword>>⟧
            ⟦<StandardKeyword as Validate>⟧ (V.checked metas.now) self.entry schema.now b.validator) }
        ensures refused { IfErr result (RefusesFrom ⟦<DocumentResolver<'a> as Resolver>⟧ ⟦<StandardTable as KeywordTable<StandardKeyword>>⟧
            ⟦<StandardKeyword as Validate>⟧ (V.checked metas.now) self.entry schema.now) }
    {
        if self.mentions_standard(schema) {
            self.build_beside(metas, schema)
        } else {
            self.build_alone(metas, schema)
        }
    }

    /// Builds a validator of a schema, which these meta validators check.
    ///
    /// Each pattern of the schema and the documents is read once. The standard's meta-schemas are
    /// among the documents that references may lead to, behind those of the options.
    ///
    /// # Errors
    ///
    /// The schema, or one that it reaches, is refused; the meta validators refuse it; more keys are
    /// reached than the limit allows; or out of memory.
    pub fn build_by<V: MetaValidators>(
        self,
        metas: &V,
        schema: &'a Value,
    ) -> Result<StandardValidator, BuildError>
        ensures built { IfOk result (IsBuiltFrom ⟦<DocumentResolver<'a> as Resolver>⟧ ⟦<StandardTable as KeywordTable<StandardKeyword>>⟧
            ⟦<StandardKeyword as Validate>⟧ (V.checked metas.now) self.entry schema.now) }
        ensures refused { IfErr result (RefusesFrom ⟦<DocumentResolver<'a> as Resolver>⟧ ⟦<StandardTable as KeywordTable<StandardKeyword>>⟧
            ⟦<StandardKeyword as Validate>⟧ (V.checked metas.now) self.entry schema.now) }
    {
        match self.build_any(metas, schema) {
            Ok(built) => Ok(validator_in(built)),
            Err(fault) => Err(fault),
        }
    }

    /// Builds a validator of a schema, which its meta-schemas check.
    ///
    /// These are the standard's, and the one that its `$schema` names among the documents. That one
    /// checks the document that names it, and is itself checked by its own meta-schemas.
    ///
    /// A meta-schema of the standard that is not compiled yet is compiled if the schema needs it, and
    /// is kept for further builds. It is needed if the schema is of its draft. If a `$schema` stands
    /// inside the schema, or its own is none of the standard's, then those of all drafts are needed.
    ///
    /// # Errors
    ///
    /// As for `build`.
    pub fn build_with(
        self,
        metas: &mut MetaSchemas,
        schema: &'a Value,
    ) -> Result<StandardValidator, BuildError>
        ensures built { IfOk result (IsBuiltWith ⟦<DocumentResolver<'a> as Resolver>⟧ ⟦<StandardTable as KeywordTable<StandardKeyword>>⟧
            ⟦<StandardKeyword as Validate>⟧ metas.new.checkers self.entry schema.now) }
        ensures refused { IfErr result (RefusesChecked ⟦<DocumentResolver<'a> as Resolver>⟧ ⟦<StandardTable as KeywordTable<StandardKeyword>>⟧
            ⟦<StandardKeyword as Validate>⟧ metas.new.checkers self.entry schema.now) }
        ensures each { EachMeans ⟦<DocumentResolver<'static> as Resolver>⟧ ⟦<StandardTable as KeywordTable<StandardKeyword>>⟧
            ⟦<StandardKeyword as Validate>⟧ metas.old.checkers
            → EachMeans ⟦<DocumentResolver<'static> as Resolver>⟧ ⟦<StandardTable as KeywordTable<StandardKeyword>>⟧
            ⟦<StandardKeyword as Validate>⟧ metas.new.checkers }
    {
        match self.prepare(metas, schema) {
            Ok(()) => self.build_checked(&*metas, schema),
            Err(fault) => Err(fault),
        }
    }

    /// Builds a validator of a schema. The validator borrows nothing.
    ///
    /// Its meta-schemas check the schema first, unless the options turn that off (`build_with`).
    ///
    /// # Errors
    ///
    /// The schema, or one that it reaches, is refused; a meta-schema refuses it; a meta-schema among
    /// the documents is refused, or cannot check schemas; more distinct schemas are reached than the
    /// limit allows; or out of memory.
    pub fn build(self, schema: &'a Value) -> Result<StandardValidator, BuildError>
        ensures built { IfOk result (IsValidatorOf ⟦<DocumentResolver<'a> as Resolver>⟧ ⟦<StandardTable as KeywordTable<StandardKeyword>>⟧
            ⟦<StandardKeyword as Validate>⟧ self.entry schema.now) }
        ensures refused { IfErr result (IsNoValidatorOf ⟦<DocumentResolver<'a> as Resolver>⟧ ⟦<StandardTable as KeywordTable<StandardKeyword>>⟧
            ⟦<StandardKeyword as Validate>⟧ self.entry schema.now) }
    {
        let mut metas = MetaSchemas::new();
        let built = self.build_with(&mut metas, schema);
        drop(metas);
        built
    }
}
