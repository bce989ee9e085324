//! Building validators, and calling them.
//!
//! The crate has the options of a build, the build itself, the map of the validators of a document,
//! and the calls of a validator.
#![tactic(auto)]

mod building;
mod call_error;
mod compiled;
mod map;
mod options;
mod validator;

pub use call_error::CallError;
pub use map::ValidatorMap;
pub use options::ValidationOptions;
pub use options::root::root_key;
pub use validator::Validator;
