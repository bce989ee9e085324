//! The questions that a keyword asks up front, one at a time.
//!
//! Each kind of asking has its own iterator, which keeps only the state that it needs.
pub mod counted;
pub mod members;
pub mod names;

use schema_reports::{Instance, InstanceStep};

/// A question: which child is asked, and where.
///
/// `below` is `None` at the keyword's own place. Otherwise it is the instance one step below, and
/// the step.
#[derive(Clone, Copy)]
pub struct AskedQuestion<'i> {
    pub child: usize,
    pub below: Option<(Instance<'i>, InstanceStep<'i>)>,
}
