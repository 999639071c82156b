//! Surveys and openings of logs, and reports of a device in memory, with each answer; commands
//! that an open log accepts or refuses.
#![tactic(auto)]

#[cfg(test)]
mod loads;
#[cfg(test)]
mod opened;
#[cfg(test)]
mod reports;
#[cfg(test)]
mod surveys;
