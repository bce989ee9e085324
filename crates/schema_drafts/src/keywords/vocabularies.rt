//! Vocabularies and sets of them.
//!
//! The set has one flag for each of the nine standard vocabularies, and sorts the URIs of the
//! others, so two sets with the same vocabularies are equal. If several custom vocabularies are not
//! declared, a refusal names the first of them in that order.
ghost use Rattle.std.specs.Prelude.{◌≡◌, ◌≤◌, ◌++◌, ◌∷◌, MatchOption, OnErr, OnOk, bytes_eq, drop, length, map, string_bytes, take};
ghost use Rattle.std.specs.List.{list_any};
ghost use Rattle.theory_definitions.specs.VocabularySets.{placed_text};

use std::alloc::{AllocError, Global};
use std::cmp::Ordering;
use std::marker::Model;

/// A vocabulary that a meta-schema requires.
///
/// It is one of the standard's, or a custom one by its URI.
#[derive(Clone, Debug, PartialEq, Eq, PartialOrd, Ord, Hash, Drop)]
pub enum Vocabulary {
    Core,
    Applicator,
    Unevaluated,
    Validation,
    Metadata,
    Format,
    FormatAnnotation,
    FormatAssertion,
    Content,
    Custom(String),
}

/// A set of vocabularies.
///
/// It records which of the standard's vocabularies it holds. The custom ones are kept by their
/// URIs, each once, sorted by their bytes, whatever the order in which they were added. So two sets
/// that hold the same vocabularies are equal.
///
/// Contracts see the set as a list, with the standard's vocabularies first.
#[derive(Debug, Drop)]
pub struct VocabularySet {
    core: bool,
    applicator: bool,
    unevaluated: bool,
    validation: bool,
    metadata: bool,
    format: bool,
    format_annotation: bool,
    format_assertion: bool,
    content: bool,
    custom: Vec<String>,
}

impl Model for VocabularySet {
    ghost use Rattle.std.specs.Prelude.{List, [], ◌∷◌, ◌≡◌, map, string_bytes, true};
    ghost use Rattle.theory_definitions.specs.Drafts.{Vocabulary};
    ghost use Rattle.theory_definitions.specs.VocabularySets.{is_rising, listed};

    ghost Value = { List Vocabulary };

    ghost view = { λ s. listed
        (s.core ∷ s.applicator ∷ s.unevaluated ∷ s.validation ∷ s.metadata
        ∷ s.format ∷ s.format_annotation ∷ s.format_assertion ∷ s.content ∷ [])
        (map string_bytes s.custom.items) };

    ghost invariant = { λ s. is_rising (map string_bytes s.custom.items) ≡ true };
}

impl VocabularySet {
    ghost use Rattle.std.specs.Prelude.{◌≡◌, ◌↔◌, [], map, IfOk, OnErr, OnOk, string_bytes, true};
    ghost use Rattle.theory_definitions.specs.Drafts.{has_vocabulary, same_vocabularies};
    ghost use Rattle.schema_drafts.specs.KeywordViews.{vocabulary_of};
    ghost use Rattle.theory_definitions.specs.VocabularySets.{AddsOnly, HoldSame, custom_of, is_rising, with_uri};

    /// Returns the empty set. Does not allocate.
    pub fn new(alloc: Global) -> VocabularySet
        ensures empty { result ≡ [] }
    {
        VocabularySet {
            core: false,
            applicator: false,
            unevaluated: false,
            validation: false,
            metadata: false,
            format: false,
            format_annotation: false,
            format_assertion: false,
            content: false,
            custom: Vec::new(alloc),
        }
    }

    /// Returns `true` if the vocabulary is in the set. Does not allocate.
    pub fn contains(&self, vocabulary: &Vocabulary) -> bool
        ensures member { result ≡ has_vocabulary self.now (vocabulary_of vocabulary.now) }
    {
        match vocabulary {
            Vocabulary::Core => self.core,
            Vocabulary::Applicator => self.applicator,
            Vocabulary::Unevaluated => self.unevaluated,
            Vocabulary::Validation => self.validation,
            Vocabulary::Metadata => self.metadata,
            Vocabulary::Format => self.format,
            Vocabulary::FormatAnnotation => self.format_annotation,
            Vocabulary::FormatAssertion => self.format_assertion,
            Vocabulary::Content => self.content,
            Vocabulary::Custom(uri) => contains_text(&self.custom, uri),
        }
    }

    /// Adds a vocabulary to the set, if it is not there already.
    ///
    /// # Errors
    ///
    /// Out of memory. The set is then unchanged.
    pub fn add(&mut self, vocabulary: Vocabulary) -> Result<(), AllocError>
        ensures member { OnOk result (AddsOnly self.old self.new (vocabulary_of vocabulary)) }
        ensures custom { OnOk result (custom_of self.new ≡ with_uri (vocabulary_of vocabulary) (custom_of self.old)) }
        ensures kept { OnErr result (self.new ≡ self.old) }
    {
        match vocabulary {
            Vocabulary::Core => self.core = true,
            Vocabulary::Applicator => self.applicator = true,
            Vocabulary::Unevaluated => self.unevaluated = true,
            Vocabulary::Validation => self.validation = true,
            Vocabulary::Metadata => self.metadata = true,
            Vocabulary::Format => self.format = true,
            Vocabulary::FormatAnnotation => self.format_annotation = true,
            Vocabulary::FormatAssertion => self.format_assertion = true,
            Vocabulary::Content => self.content = true,
            Vocabulary::Custom(uri) => place_text(&mut self.custom, uri)?,
        }
        Ok(())
    }

    /// Returns the set with one more vocabulary.
    ///
    /// # Errors
    ///
    /// Out of memory.
    pub fn with(self, vocabulary: Vocabulary) -> Result<VocabularySet, AllocError>
        ensures member { IfOk result (λ set. AddsOnly self set (vocabulary_of vocabulary)) }
        ensures custom { IfOk result (λ set. custom_of set ≡ with_uri (vocabulary_of vocabulary) (custom_of self)) }
    {
        let mut set = self;
        set.add(vocabulary)?;
        Ok(set)
    }

    /// Returns `true` if both sets hold the same vocabularies. Does not allocate.
    pub fn same(&self, other: &VocabularySet) -> bool
        ensures same { result ≡ same_vocabularies self.now other.now }
        ensures members { (result ≡ true) ↔ HoldSame self.now other.now }
    {
        let own = [
            self.core,
            self.applicator,
            self.unevaluated,
            self.validation,
            self.metadata,
            self.format,
            self.format_annotation,
            self.format_assertion,
            self.content,
        ];
        let others = [
            other.core,
            other.applicator,
            other.unevaluated,
            other.validation,
            other.metadata,
            other.format,
            other.format_annotation,
            other.format_assertion,
            other.content,
        ];
        own == others && self.custom == other.custom
    }

    /// Returns the URIs of the custom vocabularies, each once, sorted by their bytes.
    pub fn custom(&self) -> &[String]
        ensures custom { map string_bytes result.now ≡ custom_of self.now }
        ensures rising { is_rising (custom_of self.now) ≡ true }
    {
        &self.custom
    }
}

impl Clone for VocabularySet {
    ghost is_clone = { λ set copy. copy ≡ set };

    fn clone(&self) -> Result<VocabularySet, AllocError> {
        Ok(VocabularySet {
            custom: self.custom.clone()?,
            ..*self
        })
    }
}

fn contains_text(texts: &[String], text: &String) -> bool
    ensures found { result ≡ list_any (bytes_eq (string_bytes text.now)) (map string_bytes texts.now) }
{
    for other in texts {
        if text.as_str() == other.as_str() {
            return true;
        }
    }
    false
}

// Returns the position at which the text, once inserted, leaves the texts sorted. Returns `None` if
// the text is there already.
fn place_among(texts: &[String], text: &str) -> Option<usize>
    ensures place { MatchOption result
        (placed_text text.now (map string_bytes texts.now) ≡ map string_bytes texts.now)
        (λ i. (i ≤ length texts.now) × (placed_text text.now (map string_bytes texts.now)
        ≡ map string_bytes (take i texts.now) ++ text.now ∷ map string_bytes (drop i texts.now))) }
{
    for (i, other) in texts.iter().enumerate() {
        match text.cmp(other.as_str()) {
            Ordering::Less => return Some(i),
            Ordering::Equal => return None,
            Ordering::Greater => {}
        }
    }
    Some(texts.len())
}

// Inserts the text into the sorted texts, unless it is there already. On `Err` they are unchanged.
fn place_text(texts: &mut Vec<String>, text: String) -> Result<(), AllocError>
    ensures placed { OnOk result
        (map string_bytes texts.new.items ≡ placed_text (string_bytes text) (map string_bytes texts.old.items)) }
    ensures kept { OnErr result (texts.new.items ≡ texts.old.items) }
{
    match place_among(texts, text.as_str()) {
        Some(at) => {
            texts.insert(at, text)?;
            Ok(())
        }
        None => Ok(()),
    }
}
