//! The log or queue of an area: what its blocks say, found by reading them.
#![tactic(auto)]

mod next;
mod payload;
mod reading;
mod repairing;
mod single;
mod surveying;

pub use payload::read_payload;
pub use reading::Reading;
pub use repairing::{inspect, repair};
pub use single::entry_of;
pub use surveying::{Seen, SurveyFault, survey};
