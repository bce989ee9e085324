//! The program `engine_bench`: how it answers its arguments, which are bytes.
#![tactic(auto)]

mod narrow;
mod program;

pub use narrow::narrow_resolver;
pub use program::answers::{Answer, ask};
pub use program::arguments::given_words;
pub use program::faults::{Fault, Word};
pub use program::requests::{Call, Request, Words, request_in};
pub use program::{Status, refuse, run};
