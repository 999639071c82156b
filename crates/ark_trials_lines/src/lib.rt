//! Lines that are read and replies that are printed, one by one: what no clause says, against values from outside.
#![tactic(auto)]

#[cfg(test)]
mod printed;
#[cfg(test)]
mod reading;
