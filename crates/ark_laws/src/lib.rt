//! Laws of what the control plane means: each is the contract of a function that does nothing.
#![tactic(auto)]

mod effects;
mod filters;
mod laws;
mod places;

pub use effects::{area_laws, failure_laws, frame_laws, label_laws, stop_laws};
pub use filters::{list_laws, overlap_laws};
pub use laws::{
    confinement_laws, fault_laws, grant_laws, order_laws, privacy_laws, refusal_laws, run_laws,
};
pub use places::place_laws;
