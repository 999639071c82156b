//! Laws of an open log or queue while its card and its device go on.
#![tactic(auto)]

mod accepting;
mod giving;
mod laws;
mod loading;
mod moving;
mod opening;
mod polling;
mod posting;
mod walking;

pub use accepting::{accepting_laws, refusing_laws};
pub use giving::giving_laws;
pub use laws::frame_laws;
pub use loading::{loading_laws, reading_laws};
pub use moving::{due_laws, moving_laws};
pub use opening::{closing_laws, opening_laws};
pub use polling::{ending_laws, ring_laws};
pub use posting::{phase_laws, posting_laws};
pub use walking::walking_laws;
