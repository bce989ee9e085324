//! The formats by name.
ghost use Rattle.std.specs.Prelude.{◌≡◌};
ghost use Rattle.text_formats.specs.Formats as spec;

use crate::addresses::{is_ipv4, is_ipv6};
use crate::dates::{is_date, is_date_time, is_time};
use crate::durations::is_duration;
use crate::emails::{is_email, is_idn_email};
use crate::hostnames::is_hostname;
use crate::iris::{is_iri, is_iri_reference};
use crate::pointers::{is_json_pointer, is_relative_json_pointer};
use crate::templates::is_uri_template;
use crate::uris::{is_uri, is_uri_reference};
use crate::uuids::is_uuid;

/// A format that is checked by its grammar.
#[derive(Clone, Copy)]
pub enum Format {
    Date,
    DateTime,
    Duration,
    Email,
    Hostname,
    IdnEmail,
    Ipv4,
    Ipv6,
    Iri,
    IriReference,
    JsonPointer,
    RelativeJsonPointer,
    Time,
    Uri,
    UriReference,
    UriTemplate,
    Uuid,
}

impl Format {
    /// Returns the format with this name in JSON Schema, if it is one of these.
    pub fn named(name: &str) -> Option<Format>
        ensures named { result ≡ spec.named name.now }
    {
        if name == "date" {
            Some(Format::Date)
        } else if name == "time" {
            Some(Format::Time)
        } else if name == "date-time" {
            Some(Format::DateTime)
        } else if name == "duration" {
            Some(Format::Duration)
        } else {
            host_named(name)
        }
    }

    /// Returns the name of the format.
    pub fn name(self) -> &'static str
        ensures name { result.now ≡ spec.name_of self }
    {
        match self {
            Format::Date => "date",
            Format::DateTime => "date-time",
            Format::Duration => "duration",
            Format::Email => "email",
            Format::Hostname => "hostname",
            Format::IdnEmail => "idn-email",
            Format::Ipv4 => "ipv4",
            Format::Ipv6 => "ipv6",
            Format::Iri => "iri",
            Format::IriReference => "iri-reference",
            Format::JsonPointer => "json-pointer",
            Format::RelativeJsonPointer => "relative-json-pointer",
            Format::Time => "time",
            Format::Uri => "uri",
            Format::UriReference => "uri-reference",
            Format::UriTemplate => "uri-template",
            Format::Uuid => "uuid",
        }
    }

    /// Returns whether a text has the format.
    pub fn accepts(self, text: &str) -> bool
        ensures accepts { result ≡ spec.accepts self text.now }
    {
        match self {
            Format::Date => is_date(text),
            Format::DateTime => is_date_time(text),
            Format::Duration => is_duration(text),
            Format::Email => is_email(text),
            Format::Hostname => is_hostname(text),
            Format::IdnEmail => is_idn_email(text),
            Format::Ipv4 => is_ipv4(text),
            Format::Ipv6 => is_ipv6(text),
            Format::Iri => is_iri(text),
            Format::IriReference => is_iri_reference(text),
            Format::JsonPointer => is_json_pointer(text),
            Format::RelativeJsonPointer => is_relative_json_pointer(text),
            Format::Time => is_time(text),
            Format::Uri => is_uri(text),
            Format::UriReference => is_uri_reference(text),
            Format::UriTemplate => is_uri_template(text),
            Format::Uuid => is_uuid(text),
        }
    }
}

fn host_named(name: &str) -> Option<Format>
    ensures named { result ≡ spec.host_named name.now }
{
    if name == "email" {
        Some(Format::Email)
    } else if name == "idn-email" {
        Some(Format::IdnEmail)
    } else if name == "hostname" {
        Some(Format::Hostname)
    } else if name == "ipv4" {
        Some(Format::Ipv4)
    } else if name == "ipv6" {
        Some(Format::Ipv6)
    } else {
        reference_named(name)
    }
}

fn reference_named(name: &str) -> Option<Format>
    ensures named { result ≡ spec.reference_named name.now }
{
    if name == "uri" {
        Some(Format::Uri)
    } else if name == "uri-reference" {
        Some(Format::UriReference)
    } else if name == "uri-template" {
        Some(Format::UriTemplate)
    } else if name == "iri" {
        Some(Format::Iri)
    } else if name == "iri-reference" {
        Some(Format::IriReference)
    } else {
        pointer_named(name)
    }
}

fn pointer_named(name: &str) -> Option<Format>
    ensures named { result ≡ spec.pointer_named name.now }
{
    if name == "json-pointer" {
        Some(Format::JsonPointer)
    } else if name == "relative-json-pointer" {
        Some(Format::RelativeJsonPointer)
    } else if name == "uuid" {
        Some(Format::Uuid)
    } else {
        None
    }
}
