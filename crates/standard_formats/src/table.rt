//! The table that makes `format`, `contentEncoding` and `contentMediaType`.
ghost use Rattle.std.specs.Prelude.{◌≡◌, bytes_eq, codes};
ghost use Rattle.serde_json.specs.Find.{as_str};
ghost use Rattle.serde_json.specs.View.{view};
ghost use Rattle.schema_drafts.specs.KeywordViews.{builtin_text, draft_of};
ghost use Rattle.keyword_makers.specs.ByObject.{formed};
ghost use Rattle.standard_formats.specs.FormatMaking.{asserts_contents, contents_made, encoding_beside, encoding_made, format_made};
ghost use Rattle.standard_formats.specs.FormatMaking.{idn_hostname_in, is_base64_name, is_json_name, is_json_type, json_beside, json_in, keyword_if, keyword_named, known};
ghost use Rattle.standard_formats.specs.FormatMaking.{made, media_type_made, order, since};
ghost use Rattle.standard_formats.specs.Shapes.{shape_of};
ghost use Rattle.schema_traits.specs.Readings.{fields, text_read};
ghost use Rattle.standard_formats.specs.MakerWords.{FollowsMember, made_of_value, encoding_in, media_type_in};

use crate::keyword::FormatKeyword;
use keyword_authoring::Telling;
use keyword_makers::{Children, Ending, ObjectKeyword, PathsMaker, ends, maker_of, value_in};
use schema_drafts::{BuiltinKeyword, Draft, VocabularySet};
use schema_reports::OutOfMemory;
use schema_traits::{KeywordOrigin, KeywordTable, MakerReply, MakerStep};
use serde_json::{Map, Value};
use std::alloc::Global;
use text_formats::Format;

/// The keyword that a member of an object makes.
type Made = ObjectKeyword<Telling<FormatKeyword>>;

type Maker = PathsMaker<Telling<FormatKeyword>>;

/// Returns a number that orders the drafts.
///
/// An unknown draft counts as the last one.
fn order(draft: Draft) -> u32
    ensures order { result ≡ order (draft_of draft) }
{
    match draft {
        Draft::Draft4 => 4,
        Draft::Draft6 => 6,
        Draft::Draft7 => 7,
        Draft::Draft201909 => 2019,
        Draft::Draft202012 => 2020,
        Draft::Unknown => 2020,
    }
}

/// Returns the number of the first draft in which a format is checked.
fn since(format: Format) -> u32
    ensures since { result ≡ since format }
{
    match format {
        Format::Date => 4,
        Format::DateTime => 4,
        Format::Duration => 2019,
        Format::Email => 4,
        Format::Hostname => 4,
        Format::IdnEmail => 7,
        Format::Ipv4 => 4,
        Format::Ipv6 => 4,
        Format::Iri => 7,
        Format::IriReference => 7,
        Format::JsonPointer => 6,
        Format::RelativeJsonPointer => 7,
        Format::Time => 4,
        Format::Uri => 4,
        Format::UriReference => 6,
        Format::UriTemplate => 6,
        Format::Uuid => 2019,
    }
}

fn known(draft: Draft, format: Option<Format>) -> Option<FormatKeyword>
    ensures known { result ≡ known (draft_of draft) format }
{
    match format {
        Some(format) if since(format) <= order(draft) => Some(FormatKeyword::Of(format)),
        _ => None,
    }
}

/// Returns the keyword for `idn-hostname`, if it is checked in the draft.
fn idn_hostname_in(draft: Draft) -> Option<FormatKeyword>
    ensures made { result ≡ idn_hostname_in (draft_of draft) }
{
    if 7 <= order(draft) {
        Some(FormatKeyword::IdnHostname)
    } else {
        None
    }
}

/// Returns the keyword for a format's name, if the draft checks that format.
fn keyword_named(draft: Draft, name: &str) -> Option<FormatKeyword>
    ensures named { result ≡ keyword_named (draft_of draft) name.now }
{
    if name == "regex" {
        Some(FormatKeyword::Regex)
    } else if name == "idn-hostname" {
        idn_hostname_in(draft)
    } else {
        known(draft, Format::named(name))
    }
}

/// Returns a keyword without children, or nothing.
fn keyword_if(found: Option<FormatKeyword>) -> Made
    ensures made { formed shape_of result ≡ keyword_if found }
{
    match found {
        Some(keyword) => ObjectKeyword::Keyword(Telling { keyword }, Children::Childless),
        None => ObjectKeyword::Nothing,
    }
}

/// Makes `format`, given that formats are checked.
fn format_made(draft: Draft, value: &Value) -> Made
    ensures made { formed shape_of result ≡ format_made (draft_of draft) (as_str (view value.now)) }
{
    match value.as_str() {
        Some(name) => keyword_if(keyword_named(draft, name)),
        None => ObjectKeyword::Malformed,
    }
}

/// Returns whether `contentEncoding` and `contentMediaType` assert in a draft.
fn asserts_contents(draft: Draft) -> bool
    ensures asserts { result ≡ asserts_contents (draft_of draft) }
{
    matches!(draft, Draft::Draft7)
}

/// Returns whether an encoding's name is that of base64, in letters of either case.
fn is_base64_name(name: &str) -> bool
    ensures base64 { result ≡ is_base64_name name.now }
{
    name.eq_ignore_ascii_case("base64")
}

/// Makes the assertion that a text is JSON in an encoding.
fn json_in(encoding: Option<&str>) -> Made
    ensures made { formed shape_of result ≡ json_in (text_read encoding.entry) }
{
    match encoding {
        None => ObjectKeyword::MalformedBeside("contentEncoding"),
        Some(encoding) => {
            if is_base64_name(encoding) {
                keyword_if(Some(FormatKeyword::JsonInBase64))
            } else {
                ObjectKeyword::Nothing
            }
        }
    }
}

/// Makes the assertion that a text is JSON, in the encoding beside it, if any.
fn json_beside(object: &Map<String, Value>) -> Made
    ensures made { formed shape_of result ≡ json_beside (encoding_in object.now) }
{
    match value_in(object, "contentEncoding") {
        None => keyword_if(Some(FormatKeyword::Json)),
        Some(value) => json_in(value.as_str()),
    }
}

/// Makes `contentMediaType`.
fn media_type_made(object: &Map<String, Value>, value: &Value) -> Made
    ensures made { formed shape_of result ≡ media_type_made (encoding_in object.now) (as_str (view value.now)) }
{
    match value.as_str() {
        None => ObjectKeyword::Malformed,
        Some(name) => {
            if name == "application/json" {
                json_beside(object)
            } else {
                ObjectKeyword::Nothing
            }
        }
    }
}

fn is_json_name(name: Option<&str>) -> bool
    ensures json { result ≡ is_json_name (text_read name.entry) }
{
    match name {
        Some(name) => name == "application/json",
        None => false,
    }
}

/// Returns whether an object has the media type of JSON.
fn is_of_json(object: &Map<String, Value>) -> bool
    ensures json { result ≡ is_json_type (media_type_in object.now) }
{
    match value_in(object, "contentMediaType") {
        Some(value) => is_json_name(value.as_str()),
        None => false,
    }
}

/// Makes `contentEncoding` with no media type of JSON beside it.
fn encoding_made(value: &Value) -> Made
    ensures made { formed shape_of result ≡ encoding_made (as_str (view value.now)) }
{
    match value.as_str() {
        None => ObjectKeyword::Malformed,
        Some(name) => {
            if is_base64_name(name) {
                keyword_if(Some(FormatKeyword::Base64))
            } else {
                ObjectKeyword::Nothing
            }
        }
    }
}

/// Makes `contentEncoding`, unless the media type beside it makes one keyword for both.
fn encoding_beside(object: &Map<String, Value>, value: &Value) -> Made
    ensures made { formed shape_of result ≡ encoding_beside (media_type_in object.now) (as_str (view value.now)) }
{
    if is_of_json(object) {
        ObjectKeyword::Nothing
    } else {
        encoding_made(value)
    }
}

/// Makes `contentMediaType` or `contentEncoding`.
fn contents_made(keyword: BuiltinKeyword, value: &Value, object: &Map<String, Value>) -> Made
    ensures made { formed shape_of result ≡ contents_made (fields object.now) (builtin_text keyword) (view value.now) }
{
    match keyword {
        BuiltinKeyword::ContentMediaType => media_type_made(object, value),
        BuiltinKeyword::ContentEncoding => encoding_beside(object, value),
        BuiltinKeyword::TypeKeyword
        | BuiltinKeyword::Const
        | BuiltinKeyword::Enum
        | BuiltinKeyword::Minimum
        | BuiltinKeyword::Maximum
        | BuiltinKeyword::ExclusiveMinimum
        | BuiltinKeyword::ExclusiveMaximum
        | BuiltinKeyword::MultipleOf
        | BuiltinKeyword::MinLength
        | BuiltinKeyword::MaxLength
        | BuiltinKeyword::MinItems
        | BuiltinKeyword::MaxItems
        | BuiltinKeyword::MinProperties
        | BuiltinKeyword::MaxProperties
        | BuiltinKeyword::DependentRequired
        | BuiltinKeyword::UniqueItems => ObjectKeyword::Nothing,
        BuiltinKeyword::Required
        | BuiltinKeyword::Pattern
        | BuiltinKeyword::Properties
        | BuiltinKeyword::PropertyNames
        | BuiltinKeyword::Items
        | BuiltinKeyword::PrefixItems
        | BuiltinKeyword::AllOf
        | BuiltinKeyword::AnyOf
        | BuiltinKeyword::OneOf
        | BuiltinKeyword::Not
        | BuiltinKeyword::If => ObjectKeyword::Nothing,
        BuiltinKeyword::PatternProperties | BuiltinKeyword::AdditionalProperties =>
            ObjectKeyword::Nothing,
        BuiltinKeyword::AdditionalItems
        | BuiltinKeyword::Contains
        | BuiltinKeyword::Dependencies
        | BuiltinKeyword::DependentSchemas => ObjectKeyword::Nothing,
        BuiltinKeyword::Format | BuiltinKeyword::ContentSchema => ObjectKeyword::Nothing,
        BuiltinKeyword::UnevaluatedProperties
        | BuiltinKeyword::UnevaluatedItems
        | BuiltinKeyword::Ref
        | BuiltinKeyword::RecursiveRef
        | BuiltinKeyword::DynamicRef => ObjectKeyword::Nothing,
    }
}

#[tactic(auto, using(crate::proofs::OtherNames::not_format))]
fn is_format(keyword: BuiltinKeyword) -> bool
    ensures format { result ≡ bytes_eq (builtin_text keyword) (codes "format") }
{
    matches!(keyword, BuiltinKeyword::Format)
}

/// Makes the keyword of a member with this value.
///
/// `checked` says whether formats are checked.
fn keyword_made(
    checked: bool,
    keyword: BuiltinKeyword,
    value: &Value,
    object: &Map<String, Value>,
    draft: Draft,
) -> Made
    ensures made { formed shape_of result ≡ made_of_value checked draft object.now keyword value.now }
{
    if checked && is_format(keyword) {
        format_made(draft, value)
    } else if asserts_contents(draft) {
        contents_made(keyword, value, object)
    } else {
        ObjectKeyword::Nothing
    }
}

/// Returns the maker of an object's member.
///
/// It makes nothing if the member is missing.
fn member_maker(
    alloc: Global,
    checked: bool,
    keyword: BuiltinKeyword,
    object: &Map<String, Value>,
    draft: Draft,
) -> Result<Maker, OutOfMemory>
    ensures maker { FollowsMember result checked draft object.now keyword }
{
    let name = keyword.as_str();
    match value_in(object, name) {
        Some(value) => {
            let made = keyword_made(checked, keyword, value, object, draft);
            maker_of(alloc, name, value, object, made)
        }
        None => Ok(ends(alloc, Ending::Nothing)),
    }
}

/// A table of `format`, `contentEncoding` and `contentMediaType`.
///
/// It makes `format` if the compiler says that formats are checked: up to draft 7 always, and later
/// if a vocabulary or an option says so. It makes `contentEncoding` and `contentMediaType` in draft
/// 7. The table owns no name.
#[derive(Drop)]
pub struct FormatTable {}

impl KeywordTable<Telling<FormatKeyword>> for FormatTable {
    ghost use Rattle.std.specs.Prelude.{false, refl};
    ghost use Rattle.keyword_makers.specs.MakerViews.{waiting_of};
    ghost use Rattle.standard_formats.specs.FormatMaking.{format_script, makes_rightly};

    type Maker = Maker;

    ghost owned = { λ _ name. false };

    ghost script = { λ _. format_script };

    ghost waiting = { waiting_of shape_of };

    fn owns(&self, _name: &str) -> bool {
        false
    }

    fn begin(
        &self,
        alloc: Global,
        origin: KeywordOrigin<'_>,
        object: &Map<String, Value>,
        draft: Draft,
        _vocabularies: &VocabularySet,
        formats: bool,
    ) -> Result<Maker, OutOfMemory> {
        match origin {
            KeywordOrigin::Own(_) => Ok(ends(alloc, Ending::Nothing)),
            KeywordOrigin::Builtin(entry) => {
                member_maker(alloc, formats, entry.keyword, object, draft)
            }
        }
    }

    fn turn(
        &self,
        alloc: Global,
        maker: &mut Maker,
        reply: MakerReply,
    ) -> Result<MakerStep<Telling<FormatKeyword>>, OutOfMemory> {
        maker.turn(alloc, reply)
    }

    ghost right = { λ _. makes_rightly _ _ (λ k. refl) (λ k. refl) };
}
