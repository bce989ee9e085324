//! Required vocabularies, with one more in only one draft.
use schema_drafts::{Vocabulary, VocabularySet};
use schema_reports::OutOfMemory;
use standard_resolver::DraftVocabularies;
use std::alloc::Global;

fn with_custom(alloc: Global, usual: VocabularySet) -> Result<VocabularySet, OutOfMemory> {
    let uri = String::from_str(alloc, "http://v/x");
    usual.with(Vocabulary::Custom(uri?))
}

/// Returns the usual vocabularies, and a custom one that only 2019-09 requires.
///
/// # Errors
///
/// Out of memory.
pub fn requiring_in_2019_09(alloc: Global) -> Result<DraftVocabularies, OutOfMemory> {
    let usual = DraftVocabularies::with_required(VocabularySet::new(alloc))?;
    let DraftVocabularies {
        early,
        of_2019_09,
        late,
    } = usual;
    match with_custom(alloc, of_2019_09) {
        Ok(of_2019_09) => Ok(DraftVocabularies {
            early,
            of_2019_09,
            late,
        }),
        Err(failed) => {
            drop(early);
            drop(late);
            Err(failed)
        }
    }
}
