//! The vocabularies in force in each draft.
ghost use Rattle.std.specs.Prelude.{IfOk};
ghost use Rattle.schema_drafts.specs.KeywordViews.{draft_of};
ghost use Rattle.standard_resolver.specs.ResolverDocuments.{vocabularies_in, HasCustom, HasDrafts};
ghost use Rattle.schema_traits.specs.Showing.{Yields};

use schema_drafts::{Draft, Vocabulary, VocabularySet};
use schema_reports::OutOfMemory;

/// The vocabularies of drafts before 2019-09, of 2019-09, and of later drafts.
#[derive(Drop)]
pub struct DraftVocabularies {
    pub early: VocabularySet,
    pub of_2019_09: VocabularySet,
    pub late: VocabularySet,
}

impl DraftVocabularies {
    /// Returns each draft's own vocabularies together with the required ones.
    ///
    /// # Errors
    ///
    /// Out of memory.
    pub fn with_required(required: VocabularySet) -> Result<DraftVocabularies, OutOfMemory>
        ensures drafts { IfOk result (HasDrafts required) }
        ensures custom { IfOk result (HasCustom required) }
    {
        let of_2019_09 = required
            .clone()?
            .with(Vocabulary::Content)?
            .with(Vocabulary::Metadata)?
            .with(Vocabulary::Validation)?
            .with(Vocabulary::Applicator)?
            .with(Vocabulary::Core)?;
        let late = of_2019_09
            .clone()?
            .with(Vocabulary::FormatAnnotation)?
            .with(Vocabulary::Unevaluated)?;
        Ok(DraftVocabularies {
            early: required,
            of_2019_09,
            late,
        })
    }

    /// Returns the vocabularies in force in a draft.
    ///
    /// # Errors
    ///
    /// Out of memory.
    pub fn in_draft(&self, draft: Draft) -> Result<VocabularySet, OutOfMemory>
        ensures vocabularies { Yields result (vocabularies_in (draft_of draft) self.now) }
    {
        match draft {
            Draft::Draft4 | Draft::Draft6 | Draft::Draft7 => self.early.clone(),
            Draft::Draft201909 => self.of_2019_09.clone(),
            Draft::Draft202012 | Draft::Unknown => self.late.clone(),
        }
    }
}
