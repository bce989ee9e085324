//! The resolver of documents, and its states.
ghost use Rattle.std.specs.Prelude.{◌≡◌, IfOk, None, map, option_map, string_bytes};
ghost use Rattle.schema_drafts.specs.KeywordViews.{draft_of};
ghost use Rattle.standard_resolver.specs.ResolverAnswers.{document_resolving, HasRoot, FindsRoot};
ghost use Rattle.standard_resolver.specs.DocumentViews.{given_of};
ghost use Rattle.standard_resolver.specs.ResolverHolds.{Customs, Defaults, Drafts, GoesBy, Holds, IsUnder, ListsVocabularies, Others, RootsIn};

use crate::dialects::reading_of;
use crate::documents::{Document, Documents};
use crate::in_force::{cloned, listed_here, lists_of};
use crate::places::{root_place, value_inside};
use crate::references::{looked_up, looked_up_recursive};
use crate::resources::{Resources, resources_of};
use crate::states::entered;
use crate::vocabularies::DraftVocabularies;
use schema_drafts::{Draft, VocabularySet};
use schema_reports::OutOfMemory;
use schema_traits::{LookupError, PlacedSchema, Resolver, SchemaPath, SchemaPlace, Target};
use serde_json::{Map, Value};
use standard_subschemas::{
    Rule, identifier, is_known, names_draft_inside, resolve_uri, subschemas, subschemas_placed,
    without_fragment,
};
use std::alloc::Global;
use std::marker::Model;
use std::rc::{Rc, RcStr};

/// The state of a run.
///
/// It holds the base URI of its resource, and the numbers of the entered resources. Clones share
/// both.
#[derive(Clone, PartialEq, Eq, Hash, Drop)]
pub struct DocumentState {
    pub(crate) base: RcStr,
    pub(crate) entered: Rc<Vec<usize>>,
}

/// The type whose contract view is a state, independent of its representation.
///
/// It holds no value.
#[derive(Drop)]
pub struct StatePoint {}

impl Model for StatePoint {
    ghost use Rattle.std.specs.Prelude.{[]};
    ghost use Rattle.standard_resolver.specs.DocumentStates.{Point};

    ghost Value = { Point };

    ghost view = { λ _. record { base = []; entered = [] } };
}

/// A resolver of documents.
///
/// It finds a resource (a document, or a subschema with an identifier) by its URI, and in the
/// resource the target of a pointer or a name. By the narrow rule a reference is a fragment or a
/// URI with a scheme; by the standard's it is resolved against the base.
#[derive(Drop)]
pub struct DocumentResolver<'a> {
    rule: Rule,
    documents: Documents<'a>,
    root_draft: Option<Draft>,
    default_draft: Draft,
    vocabularies: DraftVocabularies,
    // What the `$vocabulary` of each document puts in force; nothing by the narrow rule.
    listed: Vec<Option<VocabularySet>>,
    resources: Resources<'a>,
}

impl<'a> Model for DocumentResolver<'a> {
    ghost use Rattle.std.specs.Prelude.{◌≡◌, map, option_map, string_bytes};
    ghost use Rattle.std.specs.Coded.{codes};
    ghost use Rattle.serde_json.specs.contracts.value.Value as value;
    ghost use Rattle.schema_drafts.specs.KeywordViews.{draft_of};
    ghost use Rattle.standard_resolver.specs.ResolverDocuments.{HeldDocuments};
    ghost use Rattle.standard_resolver.specs.Dialects.{reading_of};
    ghost use Rattle.standard_resolver.specs.DocumentResources.{table_for};
    ghost use Rattle.standard_resolver.specs.DocumentViews.{given_of, held};

    ghost Value = { HeldDocuments };

    ghost coded = { Prim.hlevel (codes, value.the_row.coded) };

    ghost view = { λ r. record {
      rule = r.rule;
      uri = string_bytes r.documents.uri;
      document = r.documents.root.now;
      others = map given_of r.documents.others.items;
      root_draft = option_map draft_of r.root_draft;
      default_draft = draft_of r.default_draft;
      vocabularies = r.vocabularies;
      listed = r.listed.items;
    } };

    ghost invariant = { λ r. r.resources
        ≡ table_for (reading_of r.rule (option_map draft_of r.root_draft) (draft_of r.default_draft) (held r.documents))
        (held r.documents) };
}

impl<'a> DocumentResolver<'a> {
    /// Makes a resolver of a root document and others, by a rule.
    ///
    /// Build with the root's URI as the base. By the narrow rule a document is found under the URI
    /// that it is supplied under; by the standard's it is also found under its root's identifier.
    /// If several documents have the same URI, the first is found. A document is read in `draft`
    /// unless its `$schema` says otherwise. The vocabularies are required in every draft, beside the
    /// draft's own.
    ///
    /// By the standard's rule a `$schema` may name one of the documents. Then the draft is that of
    /// this meta-schema, and what its `$vocabulary` lists is in force in place of the draft's
    /// vocabularies. A resource whose meta-schema is not known is refused when a reference leads
    /// there, or when it is entered.
    ///
    /// # Errors
    ///
    /// Out of memory.
    pub fn new(
        alloc: Global,
        rule: Rule,
        draft: Draft,
        root: Document<'a>,
        others: Vec<Document<'a>>,
        vocabularies: VocabularySet,
    ) -> Result<DocumentResolver<'a>, OutOfMemory>
        ensures rule { GoesBy result rule }
        ensures document { Holds result root.entry.value.now }
        ensures uri { IsUnder result (string_bytes root.entry.uri) }
        ensures others { Others result (map given_of others.entry.items) }
        ensures root_draft { RootsIn result None }
        ensures draft { Defaults result (draft_of draft) }
        ensures drafts { Drafts result vocabularies }
        ensures listed { ListsVocabularies result }
        ensures custom { Customs result vocabularies }
        ensures root_value { IfOk result (HasRoot root.entry.value.now) }
        ensures root { IfOk result FindsRoot }
    {
        DocumentResolver::in_draft(alloc, rule, None, draft, root, others, vocabularies)
    }

    /// Makes a resolver whose root document is read in a draft, whatever its `$schema` says.
    ///
    /// Build with the same draft. The root then has the draft's own vocabularies. Without a root's
    /// draft it is the resolver that `new` makes.
    ///
    /// # Errors
    ///
    /// Out of memory.
    pub fn in_draft(
        alloc: Global,
        rule: Rule,
        root_draft: Option<Draft>,
        default_draft: Draft,
        root: Document<'a>,
        others: Vec<Document<'a>>,
        vocabularies: VocabularySet,
    ) -> Result<DocumentResolver<'a>, OutOfMemory>
        ensures rule { GoesBy result rule }
        ensures document { Holds result root.entry.value.now }
        ensures uri { IsUnder result (string_bytes root.entry.uri) }
        ensures others { Others result (map given_of others.entry.items) }
        ensures root_draft { RootsIn result (option_map draft_of root_draft) }
        ensures draft { Defaults result (draft_of default_draft) }
        ensures drafts { Drafts result vocabularies }
        ensures listed { ListsVocabularies result }
        ensures custom { Customs result vocabularies }
        ensures root_value { IfOk result (HasRoot root.entry.value.now) }
        ensures root { IfOk result FindsRoot }
    {
        let documents = Documents {
            uri: root.uri,
            root: root.value,
            others,
        };
        let reading = reading_of(alloc, rule, root_draft, default_draft, &documents)?;
        let listed = lists_of(alloc, &reading, &documents)?;
        let resources = resources_of(alloc, reading, &documents)?;
        Ok(DocumentResolver {
            rule,
            documents,
            root_draft,
            default_draft,
            vocabularies: DraftVocabularies::with_required(vocabularies)?,
            listed,
            resources,
        })
    }

    /// Replaces the vocabularies that are in force in each draft.
    ///
    /// Allocates nothing.
    pub fn with_draft_vocabularies(self, vocabularies: DraftVocabularies) -> DocumentResolver<'a>
        ensures vocabularies { result ≡ record self.entry { vocabularies = vocabularies } }
    {
        let mut resolver = self;
        resolver.vocabularies = vocabularies;
        resolver
    }
}

impl<'a> Resolver for DocumentResolver<'a> {
    ghost use Rattle.standard_resolver.specs.DocumentViews.{point_of as state_point};
    ghost use Rattle.standard_resolver.specs.ResolverLaws.{cloned_points, same_points, values_stand_inside};
    ghost use Rattle.standard_resolver.specs.SubschemaLaws.{subschemas_stand_below};

    type State = DocumentState;

    type Point = StatePoint;

    ghost point = { state_point };

    ghost resolving = { document_resolving };

    fn contains_resource(&self, uri: &str) -> bool {
        self.resources.under(without_fragment(uri)).is_some()
    }

    fn root(
        &self,
        alloc: Global,
        uri: &str,
    ) -> Result<Option<(DocumentState, SchemaPlace)>, OutOfMemory> {
        let Some(number) = self.resources.number_of(without_fragment(uri)) else {
            return Ok(None);
        };
        let Some(resource) = self.resources.get(number) else {
            return Ok(None);
        };
        let mut entered = Vec::new(alloc);
        entered.push(number)?;
        let base = RcStr::from_str(alloc, resource.base.as_str())?;
        let entered = Rc::new(alloc, entered)?;
        Ok(Some((DocumentState { base, entered }, resource.place()?)))
    }

    fn value(&self, place: &SchemaPlace) -> Option<&Value> {
        self.documents.value_at(place)
    }

    fn value_below<'v>(
        &'v self,
        members: &'v Map<String, Value>,
        path: &SchemaPath,
        place: &SchemaPlace,
    ) -> Option<&'v Value> {
        value_inside(&self.documents, members, path, place)
    }

    fn lookup(
        &self,
        alloc: Global,
        state: &DocumentState,
        reference: &str,
        dynamic: bool,
    ) -> Result<Target<DocumentState>, LookupError> {
        let resources = &self.resources;
        looked_up(alloc, &self.documents, resources, state, reference, dynamic)
    }

    fn lookup_recursive_ref(
        &self,
        alloc: Global,
        state: &DocumentState,
    ) -> Result<Target<DocumentState>, LookupError> {
        looked_up_recursive(alloc, &self.resources, state)
    }

    fn in_subresource(
        &self,
        alloc: Global,
        state: &DocumentState,
        draft: Draft,
        place: &SchemaPlace,
    ) -> Result<DocumentState, LookupError> {
        let value = self.documents.value_at(place);
        self.in_subresource_read(alloc, state, draft, place, value)
    }

    fn in_subresource_read(
        &self,
        alloc: Global,
        state: &DocumentState,
        draft: Draft,
        place: &SchemaPlace,
        value: Option<&Value>,
    ) -> Result<DocumentState, LookupError> {
        let documents = &self.documents;
        let resources = &self.resources;
        entered(alloc, documents, resources, state, draft, place, value)
    }

    fn resolve_uri(
        &self,
        alloc: Global,
        state: &DocumentState,
        reference: &str,
    ) -> Result<String, LookupError> {
        resolve_uri(alloc, self.rule, state.base.as_str(), reference)
    }

    fn base_uri<'s>(&self, state: &'s DocumentState) -> &'s str {
        state.base.as_str()
    }

    fn resource_root(
        &self,
        alloc: Global,
        state: &DocumentState,
    ) -> Result<SchemaPlace, OutOfMemory> {
        match self.resources.under(state.base.as_str()) {
            Some(resource) => resource.place(),
            None => Ok(root_place(alloc)),
        }
    }

    fn find_vocabularies(
        &self,
        _alloc: Global,
        state: &DocumentState,
        draft: Draft,
        _place: &SchemaPlace,
    ) -> Result<VocabularySet, OutOfMemory> {
        match listed_here(&self.resources, self.listed.as_slice(), state, draft) {
            Some(listed) => cloned(listed),
            None => self.vocabularies.in_draft(draft),
        }
    }

    fn detect(&self, draft: Draft, value: &Value) -> Draft {
        self.resources.reading().detected(draft, value)
    }

    fn draft_for(&self, alloc: Global, value: &Value) -> Result<Draft, LookupError> {
        self.resources.reading().draft_declared(alloc, value)
    }

    fn id<'v>(&self, draft: Draft, value: &'v Value) -> Option<&'v str> {
        identifier(draft, value)
    }

    fn subresources_of(
        &self,
        alloc: Global,
        draft: Draft,
        place: &SchemaPlace,
    ) -> Result<Vec<SchemaPlace>, OutOfMemory> {
        match self.documents.value_at(place) {
            Some(schema) => subschemas(alloc, self.rule, draft, place, schema),
            None => Ok(Vec::new(alloc)),
        }
    }

    fn may_change_draft(&self, _draft: Draft, _place: &SchemaPlace, value: Option<&Value>) -> bool {
        match value {
            Some(schema) => names_draft_inside(schema),
            None => false,
        }
    }

    fn subschemas_read<'v>(
        &'v self,
        alloc: Global,
        draft: Draft,
        place: &SchemaPlace,
        value: Option<&'v Value>,
    ) -> Result<Vec<PlacedSchema<'v>>, OutOfMemory> {
        match value {
            Some(schema) => subschemas_placed(alloc, self.rule, draft, place, schema),
            None => Ok(Vec::new(alloc)),
        }
    }

    fn is_known_keyword(&self, draft: Draft, name: &str) -> bool {
        is_known(self.rule, draft, name)
    }

    ghost same = { λ r a b. same_points a b };

    ghost equal = { λ s t. same_points (state_point s) (state_point t) };

    ghost cloned = { λ s t same. cloned_points s t same.0 same.1 };

    ghost inside = { values_stand_inside };

    ghost below = { subschemas_stand_below };
}
