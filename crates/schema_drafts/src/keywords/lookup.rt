ghost use Rattle.std.specs.Prelude.{◌≡◌, IfSome, None, Some, if◌then◌else◌, option_map};
ghost use Rattle.schema_drafts.specs.KeywordTable.{builtin_in, content, entry_of, is_before_2019_09, is_in_force, plain_form, support_of};
ghost use Rattle.schema_drafts.specs.KeywordViews.{builtin_text, draft_of, entry_seen, form_of, support_seen, vocabulary_of};

use crate::keywords::builtin::BuiltinKeyword;
use crate::keywords::drafts::Draft;
use crate::keywords::entries::{BuiltinEntry, BuiltinRow, KeywordForm, Support};
use crate::keywords::keyword::Keyword;
use crate::keywords::priorities::{keyword_is_leaf, keyword_priority};
use crate::keywords::vocabularies::{Vocabulary, VocabularySet};

/// Returns the standard's keyword with this name, and its form.
///
/// Returns `None` if the draft does not have the keyword, or if the vocabulary that the keyword
/// needs is not in force.
pub fn get_for_draft(draft: Draft, vocabularies: &VocabularySet, name: &str) -> Option<BuiltinEntry>
    ensures entry { option_map entry_seen result ≡ entry_of (draft_of draft) vocabularies.now name.now }
    ensures named { IfSome result (λ e. builtin_text e.keyword ≡ name.now) }
{
    let keyword = BuiltinKeyword::named(name)?;
    let support = support(keyword, draft)?;
    let is_met = match &support.need {
        None => true,
        Some(vocabulary) => has_vocabulary(draft, vocabularies, vocabulary),
    };
    if is_met {
        Some(BuiltinEntry {
            keyword,
            form: support.form,
        })
    } else {
        None
    }
}

/// Returns the row of the keyword with this name.
///
/// Its entry is the one that [`get_for_draft`] returns; the result is `None` if there is none. Does
/// not allocate.
pub fn builtin_row(draft: Draft, vocabularies: &VocabularySet, name: &str) -> Option<BuiltinRow>
    ensures row { option_map (λ r. record { name = name.now; priority = r.priority; is_leaf = r.is_leaf }) result
        ≡ builtin_in (draft_of draft) vocabularies.now name.now }
    ensures entry { option_map (λ r. entry_seen r.entry) result ≡ entry_of (draft_of draft) vocabularies.now name.now }
    ensures named { IfSome result (λ r. builtin_text r.entry.keyword ≡ name.now) }
{
    let entry = get_for_draft(draft, vocabularies, name)?;
    let keyword = Keyword::Builtin(entry.keyword);
    Some(BuiltinRow {
        entry,
        priority: keyword_priority(&keyword),
        is_leaf: keyword_is_leaf(&keyword),
    })
}

/// Returns `true` if the vocabulary is in force.
///
/// Before draft 2019-09 every vocabulary is. From then on the core vocabulary always is, and any
/// other if it is in the set.
pub fn has_vocabulary(draft: Draft, vocabularies: &VocabularySet, vocabulary: &Vocabulary) -> bool
    ensures in_force { result ≡ is_in_force (draft_of draft) vocabularies.now (vocabulary_of vocabulary.now) }
{
    draft.is_before_2019_09()
        || matches!(vocabulary, Vocabulary::Core)
        || vocabularies.contains(vocabulary)
}

// The support of a keyword that no draft before 2019-09 has.
fn since_2019_09(draft: Draft, support: Option<Support>) -> Option<Support>
    ensures since { option_map support_seen result
        ≡ (if is_before_2019_09 (draft_of draft) then None else option_map support_seen support) }
{
    if draft.is_before_2019_09() {
        None
    } else {
        support
    }
}

fn always(form: KeywordForm) -> Option<Support>
    ensures free { option_map support_seen result ≡ Some (record { need = None; form = form_of form }) }
{
    Some(Support { need: None, form })
}

fn by(vocabulary: Vocabulary) -> Option<Support>
    ensures needs { option_map support_seen result ≡ Some (record { need = Some (vocabulary_of vocabulary); form = plain_form }) }
{
    Some(Support {
        need: Some(vocabulary),
        form: KeywordForm::Plain,
    })
}

fn by_content() -> Option<Support>
    ensures content { option_map support_seen result ≡ content }
{
    Some(Support {
        need: Some(Vocabulary::Content),
        form: KeywordForm::Annotating,
    })
}

fn support(keyword: BuiltinKeyword, draft: Draft) -> Option<Support>
    ensures support { option_map support_seen result ≡ support_of (draft_of draft) (builtin_text keyword) }
{
    match keyword {
        BuiltinKeyword::TypeKeyword | BuiltinKeyword::Minimum | BuiltinKeyword::Maximum => {
            match draft {
                Draft::Draft4 => always(KeywordForm::Draft4),
                _ => by(Vocabulary::Validation),
            }
        }
        BuiltinKeyword::Const
        | BuiltinKeyword::ExclusiveMinimum
        | BuiltinKeyword::ExclusiveMaximum => match draft {
            Draft::Draft4 => None,
            _ => by(Vocabulary::Validation),
        },
        BuiltinKeyword::Enum
        | BuiltinKeyword::MultipleOf
        | BuiltinKeyword::MinLength
        | BuiltinKeyword::MaxLength
        | BuiltinKeyword::MinItems
        | BuiltinKeyword::MaxItems
        | BuiltinKeyword::MinProperties
        | BuiltinKeyword::MaxProperties
        | BuiltinKeyword::Required
        | BuiltinKeyword::Pattern
        | BuiltinKeyword::UniqueItems => by(Vocabulary::Validation),
        BuiltinKeyword::DependentRequired => since_2019_09(draft, by(Vocabulary::Validation)),
        BuiltinKeyword::Format | BuiltinKeyword::Ref => always(KeywordForm::Plain),
        BuiltinKeyword::ContentEncoding | BuiltinKeyword::ContentMediaType => match draft {
            Draft::Draft4 => None,
            Draft::Draft6 | Draft::Draft7 => always(KeywordForm::Plain),
            _ => by_content(),
        },
        BuiltinKeyword::ContentSchema => since_2019_09(draft, by_content()),
        BuiltinKeyword::Properties
        | BuiltinKeyword::PatternProperties
        | BuiltinKeyword::AdditionalProperties
        | BuiltinKeyword::Items
        | BuiltinKeyword::AdditionalItems
        | BuiltinKeyword::Dependencies
        | BuiltinKeyword::AllOf
        | BuiltinKeyword::AnyOf
        | BuiltinKeyword::OneOf
        | BuiltinKeyword::Not => by(Vocabulary::Applicator),
        BuiltinKeyword::PropertyNames | BuiltinKeyword::Contains => match draft {
            Draft::Draft4 => None,
            _ => by(Vocabulary::Applicator),
        },
        BuiltinKeyword::PrefixItems => match draft {
            Draft::Draft202012 | Draft::Unknown => by(Vocabulary::Applicator),
            _ => None,
        },
        BuiltinKeyword::DependentSchemas => since_2019_09(draft, by(Vocabulary::Applicator)),
        BuiltinKeyword::If => match draft {
            Draft::Draft4 | Draft::Draft6 => None,
            _ => by(Vocabulary::Applicator),
        },
        BuiltinKeyword::UnevaluatedProperties | BuiltinKeyword::UnevaluatedItems => match draft {
            Draft::Draft202012 | Draft::Unknown => by(Vocabulary::Unevaluated),
            _ => since_2019_09(draft, by(Vocabulary::Applicator)),
        },
        BuiltinKeyword::RecursiveRef => match draft {
            Draft::Draft201909 => always(KeywordForm::Plain),
            _ => None,
        },
        BuiltinKeyword::DynamicRef => match draft {
            Draft::Draft202012 | Draft::Unknown => always(KeywordForm::Plain),
            _ => None,
        },
    }
}
