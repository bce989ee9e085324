//! Instances, errors and evaluations.
#![tactic(auto)]

mod evaluation;
mod evaluation_result;
mod instance;
mod location;
mod reports;
mod shared_location;
mod text;

pub use evaluation::{Annotations, ChildList, ErrorDescription, EvaluationNode, UnitReport};
pub use evaluation_result::{AbsorbedResult, EvaluationResult, accepts};
pub use instance::{Instance, InstanceStep, Place, push_step, same_step};
pub use location::{Location, LocationSegment, OutOfMemory};
pub use reports::{ErrorIterator, OwnedError, ValidationError};
pub use shared_location::{SharedLocation, is_plain};
pub use text::Text;
