//! The meta-schemas of drafts 4, 6, 7, 2019-09 and 2020-12, as JSON texts.
//!
//! Each has the URI by which schemas refer to it. They are written from the standard's tables of
//! keywords, and accept and refuse the same schemas as the standard's own meta-schemas
//! (`tools/meta_schemas.py` compares them). Definitions that schemas are known to refer to have the
//! standard's names.
#![tactic(auto)]

ghost use Rattle.std.specs.Prelude.{◌≡◌, map};
ghost use Rattle.schema_drafts.specs.KeywordViews.{draft_of};
ghost use Rattle.meta_schemas.specs.MetaTexts.{schema_text, vocabulary_texts, written};

mod draft2019_09;
mod draft2020_12;
mod draft4;
mod draft6;
mod draft7;

use schema_drafts::Draft;

/// A meta-schema, or the meta-schema of a vocabulary.
#[derive(Clone, Copy)]
pub struct MetaSchema {
    /// The URI of the meta-schema, without a fragment.
    pub uri: &'static str,
    /// The JSON text of the meta-schema.
    pub text: &'static str,
}

/// The meta-schemas of the vocabularies of 2019-09.
static OF_2019_09: [MetaSchema; 6] = [
    MetaSchema {
        uri: "https://json-schema.org/draft/2019-09/meta/core",
        text: draft2019_09::CORE,
    },
    MetaSchema {
        uri: "https://json-schema.org/draft/2019-09/meta/applicator",
        text: draft2019_09::APPLICATOR,
    },
    MetaSchema {
        uri: "https://json-schema.org/draft/2019-09/meta/validation",
        text: draft2019_09::VALIDATION,
    },
    MetaSchema {
        uri: "https://json-schema.org/draft/2019-09/meta/meta-data",
        text: draft2019_09::META_DATA,
    },
    MetaSchema {
        uri: "https://json-schema.org/draft/2019-09/meta/format",
        text: draft2019_09::FORMAT,
    },
    MetaSchema {
        uri: "https://json-schema.org/draft/2019-09/meta/content",
        text: draft2019_09::CONTENT,
    },
];

/// The meta-schemas of the vocabularies of 2020-12.
static OF_2020_12: [MetaSchema; 8] = [
    MetaSchema {
        uri: "https://json-schema.org/draft/2020-12/meta/core",
        text: draft2020_12::CORE,
    },
    MetaSchema {
        uri: "https://json-schema.org/draft/2020-12/meta/applicator",
        text: draft2020_12::APPLICATOR,
    },
    MetaSchema {
        uri: "https://json-schema.org/draft/2020-12/meta/unevaluated",
        text: draft2020_12::UNEVALUATED,
    },
    MetaSchema {
        uri: "https://json-schema.org/draft/2020-12/meta/validation",
        text: draft2020_12::VALIDATION,
    },
    MetaSchema {
        uri: "https://json-schema.org/draft/2020-12/meta/meta-data",
        text: draft2020_12::META_DATA,
    },
    MetaSchema {
        uri: "https://json-schema.org/draft/2020-12/meta/format-annotation",
        text: draft2020_12::FORMAT_ANNOTATION,
    },
    MetaSchema {
        uri: "https://json-schema.org/draft/2020-12/meta/format-assertion",
        text: draft2020_12::FORMAT_ASSERTION,
    },
    MetaSchema {
        uri: "https://json-schema.org/draft/2020-12/meta/content",
        text: draft2020_12::CONTENT,
    },
];

/// Returns the meta-schema of a draft. An unknown draft has that of 2020-12.
pub fn meta_schema(draft: Draft) -> MetaSchema
    ensures reads { written result ≡ schema_text (draft_of draft) }
{
    match draft {
        Draft::Draft4 => MetaSchema {
            uri: "http://json-schema.org/draft-04/schema",
            text: draft4::TEXT,
        },
        Draft::Draft6 => MetaSchema {
            uri: "http://json-schema.org/draft-06/schema",
            text: draft6::TEXT,
        },
        Draft::Draft7 => MetaSchema {
            uri: "http://json-schema.org/draft-07/schema",
            text: draft7::TEXT,
        },
        Draft::Draft201909 => MetaSchema {
            uri: "https://json-schema.org/draft/2019-09/schema",
            text: draft2019_09::SCHEMA,
        },
        Draft::Draft202012 | Draft::Unknown => MetaSchema {
            uri: "https://json-schema.org/draft/2020-12/schema",
            text: draft2020_12::SCHEMA,
        },
    }
}

/// Returns the meta-schemas of a draft's vocabularies.
///
/// Before 2019-09 there are none. An unknown draft has those of 2020-12.
pub fn vocabulary_meta_schemas(draft: Draft) -> &'static [MetaSchema]
    ensures reads { map written result.now ≡ vocabulary_texts (draft_of draft) }
{
    match draft {
        Draft::Draft4 | Draft::Draft6 | Draft::Draft7 => &[],
        Draft::Draft201909 => &OF_2019_09,
        Draft::Draft202012 | Draft::Unknown => &OF_2020_12,
    }
}
