//! The meta validators.
ghost use Rattle.std.specs.Prelude.{◌≡◌, [], IfOk, None, OnOk, is_some, map, true};
ghost use Rattle.serde_json.specs.View.{view};
ghost use Rattle.theory_definitions.specs.Drafts as drafts;
ghost use Rattle.meta_checker.specs.DraftChecks.{EachChecks, known, no_programs, program_of};
ghost use Rattle.standard_meta.specs.DraftMeanings.{IsCompiledOf, MeansDraft, of_meta_schemas};
ghost use Rattle.standard_meta.specs.MetaDocuments.{given_of, read_of, reading_of, AreRead};
ghost use Rattle.meta_schemas.specs.MetaTexts.{schema_text, vocabulary_texts};
ghost use Rattle.schema_traits.specs.MatcherViews.{FinishesEach};
ghost use Rattle.schema_traits.specs.Showing.{Yields};
ghost use Rattle.pattern_matcher.specs.PatternMatching.{pattern_matcher};
ghost use Rattle.schema_drafts.specs.KeywordViews.{draft_of};
ghost use Rattle.standard_resolver.specs.DocumentViews.{given_of as document_given};
ghost use Rattle.standard_resolver.specs.ResolverHolds.{Customs, Defaults, Drafts, GoesBy, Holds, IsUnder, ListsVocabularies, Others, RootsIn};
ghost use Rattle.standard_subschemas.specs.declared.rules.Rule.TheVariants.{Narrow};

use crate::documents::{DraftDocuments, MetaDocument, read_draft};
use crate::error::MetaError;
use crate::no_meta::NoMeta;
use crate::wholeness::StandardFractions;
use meta_checker::{Checker, DraftCheckers};
use pattern_matcher::{PatternMatcher, Patterns, Treatment, Unreadable};
use schema_engine::{
    BuildError, Draft, KeywordTable, MetaValidators, Resolver, Validate, ValidationOptions,
    Validator, VocabularySet,
};
use schema_reports::{OutOfMemory, ValidationError};
use serde_json::Value;
use standard_keywords::{StandardKeyword, StandardTable};
use standard_resolver::{Document, DocumentResolver, Rule};
use std::alloc::Global;

/// A checker with the standard's keywords and regular expressions.
pub type StandardChecker = Checker<StandardKeyword, PatternMatcher>;

/// Makes the matcher of meta-schemas. It finishes every match.
fn matcher_of(alloc: Global, documents: &DraftDocuments) -> Result<PatternMatcher, OutOfMemory>
    ensures matcher { Yields result of_meta_schemas }
{
    let mut values = Vec::new(alloc);
    values.push(&documents.root.value)?;
    for document in &documents.others {
        values.push(&document.value)?;
    }
    let patterns = Patterns::for_schemas(alloc, values.as_slice())?;
    let treatment = Treatment {
        unreadable: Unreadable::MatchesNothing,
        limit: None,
    };
    PatternMatcher::with_treatment(alloc, patterns, treatment)
}

/// Returns the documents of the vocabularies.
fn others_of<'d>(
    alloc: Global,
    others: &'d [MetaDocument],
) -> Result<Vec<Document<'d>>, OutOfMemory>
    ensures others { IfOk result (λ ds. map document_given ds.items ≡ map given_of others.now) }
{
    let mut documents = Vec::new(alloc);
    for document in others {
        documents.push(Document {
            uri: String::from_str(alloc, document.uri)?,
            value: &document.value,
        })?;
    }
    Ok(documents)
}

/// Makes the resolver of a draft's meta-schemas.
fn resolver_of<'p>(
    alloc: Global,
    draft: Draft,
    documents: &'p DraftDocuments,
) -> Result<DocumentResolver<'p>, OutOfMemory>
    ensures rule { GoesBy result Narrow }
    ensures uri { IsUnder result documents.now.root.uri.now }
    ensures document { Holds result documents.now.root.value }
    ensures others { Others result (map given_of documents.now.others.items) }
    ensures root_draft { RootsIn result None }
    ensures draft { Defaults result (draft_of draft) }
    ensures drafts { Drafts result [] }
    ensures listed { ListsVocabularies result }
    ensures custom { Customs result [] }
{
    let root = Document {
        uri: String::from_str(alloc, documents.root.uri)?,
        value: &documents.root.value,
    };
    let others = others_of(alloc, documents.others.as_slice())?;
    let vocabularies = VocabularySet::new(alloc);
    DocumentResolver::new(alloc, Rule::Narrow, draft, root, others, vocabularies)
}

/// Compiles a meta-schema.
fn validator_of<'p>(
    alloc: Global,
    root: &'p Value,
    resolver: &DocumentResolver<'p>,
    matcher: &PatternMatcher,
) -> Result<Validator<StandardKeyword, PatternMatcher>, BuildError>
    ensures finishes { IfOk result (λ v. FinishesEach (pattern_matcher matcher.now)
        → FinishesEach (pattern_matcher v.matcher)) }
    ensures compiled { IfOk result (IsCompiledOf ⟦<DocumentResolver<'p> as Resolver>⟧ ⟦<StandardTable as KeywordTable<StandardKeyword>>⟧
        ⟦<StandardKeyword as Validate>⟧ resolver.now matcher.now (view root.now)) }
{
    let options = ValidationOptions::new(alloc).should_validate_schema(false);
    let table = StandardTable::new();
    options.build(alloc, root, &table, resolver, matcher, &NoMeta {})
}

/// Makes the checker of a draft from its documents.
fn checker_by<'p>(
    alloc: Global,
    draft: Draft,
    documents: &'p DraftDocuments,
) -> Result<StandardChecker, MetaError>
    ensures means { IfOk result (λ c. read_of (given_of documents.now.root) ≡ reading_of (schema_text (draft_of draft))
        → AreRead (vocabulary_texts (draft_of draft)) (map given_of documents.now.others.items)
        → MeansDraft ⟦<DocumentResolver<'p> as Resolver>⟧ ⟦<StandardTable as KeywordTable<StandardKeyword>>⟧
        ⟦<StandardKeyword as Validate>⟧ (draft_of draft) c) }
{
    let root = &documents.root;
    let matcher = matcher_of(alloc, documents)?;
    let resolver = resolver_of(alloc, draft, documents)?;
    let validator = validator_of(alloc, &root.value, &resolver, &matcher);
    drop(resolver);
    let checker = Checker::by_matcher(&StandardFractions {}, &matcher, validator?);
    match checker {
        Some(checker) => Ok(checker),
        None => Err(MetaError::Unfit(root.uri)),
    }
}

/// Reads and compiles the meta-schema of a draft.
fn checker_of(alloc: Global, draft: Draft) -> Result<StandardChecker, MetaError>
    ensures means { IfOk result (MeansDraft ⟦<DocumentResolver<'static> as Resolver>⟧ ⟦<StandardTable as KeywordTable<StandardKeyword>>⟧
        ⟦<StandardKeyword as Validate>⟧ (draft_of draft)) }
{
    let documents = read_draft(alloc, draft)?;
    let checker = checker_by(alloc, draft, &documents);
    drop(documents);
    checker
}

/// Returns the draft, or 2020-12 if it is unknown.
fn known(draft: Draft) -> Draft
    ensures known { draft_of result ≡ known (draft_of draft) }
{
    match draft {
        Draft::Draft4 => draft,
        Draft::Draft6 => draft,
        Draft::Draft7 => draft,
        Draft::Draft201909 => draft,
        Draft::Draft202012 | Draft::Unknown => Draft::Draft202012,
    }
}

/// The check of schemas by the meta-schema of their draft.
///
/// A draft's meta-schema is compiled when it is first asked for. A schema of a draft whose
/// meta-schema is not compiled is refused. An unknown draft has the meta-schema of 2020-12.
#[derive(Drop)]
pub struct MetaSchemas {
    /// The checker of each draft that has one.
    pub checkers: DraftCheckers<StandardKeyword, PatternMatcher>,
}

impl MetaSchemas {
    /// Creates a value in which no meta-schema is compiled. Does not allocate.
    pub fn new() -> MetaSchemas
        ensures none { result.checkers ≡ no_programs }
    {
        MetaSchemas {
            checkers: DraftCheckers::new(),
        }
    }

    /// Compiles the meta-schema of a draft, if that was not done before.
    ///
    /// # Errors
    ///
    /// Out of memory. The other errors do not occur: no meta-schema is refused or unfit.
    pub fn compile(&mut self, alloc: Global, draft: Draft) -> Result<(), MetaError>
        ensures compiled { OnOk result (is_some (program_of self.new.checkers (draft_of draft)) ≡ true) }
        ensures kept { (d : drafts.Draft) → is_some (program_of self.old.checkers d) ≡ true
            → is_some (program_of self.new.checkers d) ≡ true }
        ensures each { EachChecks (MeansDraft ⟦<DocumentResolver<'static> as Resolver>⟧ ⟦<StandardTable as KeywordTable<StandardKeyword>>⟧
            ⟦<StandardKeyword as Validate>⟧) self.old.checkers
            → EachChecks (MeansDraft ⟦<DocumentResolver<'static> as Resolver>⟧ ⟦<StandardTable as KeywordTable<StandardKeyword>>⟧
            ⟦<StandardKeyword as Validate>⟧) self.new.checkers }
    {
        if self.checkers.has(draft) {
            return Ok(());
        }
        let draft = known(draft);
        let checker = checker_of(alloc, draft)?;
        self.checkers.set(draft, checker);
        Ok(())
    }

    /// Compiles the meta-schemas of all drafts.
    ///
    /// # Errors
    ///
    /// As for `compile`.
    pub fn compile_each(&mut self, alloc: Global) -> Result<(), MetaError>
        ensures compiled { OnOk result ((d : drafts.Draft) → is_some (program_of self.new.checkers d) ≡ true) }
        ensures each { EachChecks (MeansDraft ⟦<DocumentResolver<'static> as Resolver>⟧ ⟦<StandardTable as KeywordTable<StandardKeyword>>⟧
            ⟦<StandardKeyword as Validate>⟧) self.old.checkers
            → EachChecks (MeansDraft ⟦<DocumentResolver<'static> as Resolver>⟧ ⟦<StandardTable as KeywordTable<StandardKeyword>>⟧
            ⟦<StandardKeyword as Validate>⟧) self.new.checkers }
    {
        self.compile(alloc, Draft::Draft4)?;
        self.compile(alloc, Draft::Draft6)?;
        self.compile(alloc, Draft::Draft7)?;
        self.compile(alloc, Draft::Draft201909)?;
        self.compile(alloc, Draft::Draft202012)
    }
}

impl MetaValidators for MetaSchemas {
    ghost use Rattle.meta_checker.specs.DraftChecks.{checked_by};
    ghost use Rattle.standard_meta.specs.DraftMeanings.{regexes};

    ghost checked = { λ m. checked_by ⟦<StandardKeyword as Validate>⟧ regexes m.checkers };

    fn check<'v>(
        &self,
        alloc: Global,
        draft: Draft,
        schema: &'v Value,
    ) -> Result<Option<ValidationError<'v>>, OutOfMemory> {
        self.checkers.check(alloc, draft, schema)
    }
}
