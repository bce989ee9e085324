//! Definitions of the parts of an engine, and of its answers.
#![tactic(auto)]
