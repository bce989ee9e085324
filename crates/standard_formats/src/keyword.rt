//! The assertions of `format`, `contentEncoding` and `contentMediaType`.
ghost use Rattle.std.specs.Prelude.{◌∷◌, [], IfOk, string_bytes, true};
ghost use Rattle.schema_traits.specs.Showing.{Yields};
ghost use Rattle.standard_formats.specs.FormatWords.{complaint, error_text, no_format, takes};
ghost use Rattle.keyword_authoring.specs.TextWords.{ShowsText};
ghost use Rattle.schema_traits.specs.Readings.{ListsTexts};
ghost use Rattle.schema_reports.specs.Showing.{Adds};

use crate::contents::{is_base64, is_json, is_json_in_base64};
use crate::idn_hostnames::is_idn_hostname;
use keyword_authoring::{CloneTelling, TellingKeyword};
use pattern_matcher::is_readable;
use schema_reports::{Instance, OutOfMemory};
use std::alloc::Global;
use text_formats::Format;

/// A keyword that tests a text.
///
/// It holds of each instance that is no text.
#[derive(Clone, Copy)]
pub enum FormatKeyword {
    /// `format` with the name of a format that is tested by its grammar.
    Of(Format),
    /// `format` with the name `regex`: a pattern that can be read.
    Regex,
    /// `format` with the name `idn-hostname`: an internationalized host name.
    IdnHostname,
    /// `contentEncoding` with the name of base64.
    Base64,
    /// `contentMediaType` with the value `application/json`.
    Json,
    /// The same, beside `contentEncoding` with the name of base64.
    JsonInBase64,
}

impl FormatKeyword {
    /// Appends the words that follow the instance in the error's text.
    fn push_complaint(self, text: &mut String) -> Result<(), OutOfMemory>
        ensures pushed { Adds result text.old text.new (complaint self) }
    {
        match self {
            FormatKeyword::Of(format) => push_no_format(text, format.name()),
            FormatKeyword::Regex => push_no_format(text, "regex"),
            FormatKeyword::IdnHostname => push_no_format(text, "idn-hostname"),
            FormatKeyword::Base64 => {
                text.push_str(" is not compliant with \"base64\" content encoding")
            }
            FormatKeyword::Json => {
                text.push_str(" is not compliant with \"application/json\" media type")
            }
            FormatKeyword::JsonInBase64 => {
                text.push_str(" is not compliant with \"application/json\" media type")
            }
        }
    }

    /// Returns whether a text passes the keyword's test.
    fn takes(self, alloc: Global, text: &str) -> Result<bool, OutOfMemory>
        ensures takes { Yields result (takes self text.now) }
    {
        match self {
            FormatKeyword::Of(format) => Ok(format.accepts(text)),
            FormatKeyword::Regex => is_readable(alloc, text),
            FormatKeyword::IdnHostname => is_idn_hostname(alloc, text),
            FormatKeyword::Base64 => is_base64(alloc, text),
            FormatKeyword::Json => is_json(alloc, text),
            FormatKeyword::JsonInBase64 => is_json_in_base64(alloc, text),
        }
    }

    /// Returns the text of the keyword's one error.
    fn text(self, alloc: Global, instance: Instance<'_>) -> Result<String, OutOfMemory>
        ensures text { IfOk result (ShowsText instance.entry (error_text self)) }
    {
        let mut text = instance.text(alloc)?;
        self.push_complaint(&mut text)?;
        Ok(text)
    }
}

/// Appends the words that say that an instance does not have a format.
fn push_no_format(text: &mut String, name: &str) -> Result<(), OutOfMemory>
    ensures pushed { Adds result text.old text.new (no_format name.now) }
{
    text.push_str(" is not a \"")?;
    text.push_str(name)?;
    text.push_str("\"")?;
    Ok(())
}

fn one_text(alloc: Global, text: String) -> Result<Vec<String>, OutOfMemory>
    ensures one { ListsTexts result (string_bytes text ∷ []) }
{
    let mut texts = Vec::new(alloc);
    texts.push(text)?;
    Ok(texts)
}

impl TellingKeyword for FormatKeyword {
    ghost use Rattle.standard_formats.specs.FormatWords.{called, error_texts};

    type Shape = FormatKeyword;

    ghost shape = { λ k. k };

    ghost shows_no_fraction = { λ k. true };

    ghost called = { called };

    ghost error_texts = { error_texts };

    fn name(&self) -> &str {
        match self {
            FormatKeyword::Of(_) => "format",
            FormatKeyword::Regex => "format",
            FormatKeyword::IdnHostname => "format",
            FormatKeyword::Base64 => "contentEncoding",
            FormatKeyword::Json => "contentMediaType",
            FormatKeyword::JsonInBase64 => "contentMediaType",
        }
    }

    fn holds_at_once(&self, instance: Instance<'_>) -> Option<bool> {
        match self {
            FormatKeyword::Of(format) => match instance {
                Instance::Name(name) => Some(format.accepts(name)),
                Instance::Value(value) => match value.as_str() {
                    Some(text) => Some(format.accepts(text)),
                    None => Some(true),
                },
            },
            _ => None,
        }
    }

    fn holds(&self, alloc: Global, instance: Instance<'_>) -> Result<bool, OutOfMemory> {
        match instance {
            Instance::Name(name) => self.takes(alloc, name),
            Instance::Value(value) => match value.as_str() {
                Some(text) => self.takes(alloc, text),
                None => Ok(true),
            },
        }
    }

    fn texts(&self, alloc: Global, instance: Instance<'_>) -> Result<Vec<String>, OutOfMemory> {
        let text = self.text(alloc, instance)?;
        one_text(alloc, text)
    }
}

impl CloneTelling for FormatKeyword {
    ghost cloned = { λ keyword copy same. same };
}
