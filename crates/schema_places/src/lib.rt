//! Numbers for the places of an instance.
#![tactic(auto)]

mod numbering;
mod on_demand;
mod places;
mod rows;

pub use on_demand::PlacesOnDemand;
pub use places::Places;
