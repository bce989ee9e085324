//! The formats that JSON Schema names.
//!
//! They include dates and times, addresses, references and pointers. Each is recognized by the
//! grammar of the standard that defines it.
#![tactic(auto)]

mod addresses;
mod characters;
mod cutting;
mod dates;
mod durations;
mod emails;
mod formats;
mod hostnames;
mod iris;
mod parts;
mod pointers;
mod templates;
mod uris;
mod uuids;

pub use addresses::{is_ipv4, is_ipv4_in, is_ipv6, is_ipv6_in};
pub use characters::{are_digits, are_hex_digits, fits, is_digit, is_hex_digit, is_letter};
pub use cutting::{after, cut, past_digits, split};
pub use dates::{is_date, is_date_time, is_time};
pub use durations::is_duration;
pub use emails::{is_email, is_idn_email};
pub use formats::Format;
pub use hostnames::is_hostname;
pub use iris::{is_iri, is_iri_reference};
pub use pointers::{is_json_pointer, is_relative_json_pointer};
pub use templates::is_uri_template;
pub use uris::{is_uri, is_uri_reference};
pub use uuids::is_uuid;
