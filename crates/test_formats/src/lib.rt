//! Tests of formats, by `text_formats` and `standard_formats`, and of patterns, by `pattern_reader`.
#![tactic(auto)]

#[cfg(test)]
mod contents;
#[cfg(test)]
mod idn_hostnames;
#[cfg(test)]
mod patterns;
#[cfg(test)]
mod tests;
