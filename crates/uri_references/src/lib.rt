//! Resolves references against a base URI (RFC 3986, section 5.2).
//!
//! The kit's `url` does not fit: it reads URLs by the URL Standard, which normalizes its input
//! (percent-encoding, default ports, the case of hosts, backslashes) and refuses bases such as
//! `folder/`. RFC 3986 changes only the dots in paths, and accepts any text. The normal form here
//! changes the case of schemes and hosts alone.
#![tactic(auto)]

mod components;
mod normal;
mod paths;
mod references;
#[cfg(test)]
mod tests;

pub use components::Components;
pub use normal::normalized;
pub use paths::{through_last_slash, without_dots};
pub use references::{resolve, resolve_normally};
