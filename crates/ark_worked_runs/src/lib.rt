//! Runs, reports and generated scripts that are worked from the definitions of the command line. Nothing stands on this crate.
#![tactic(auto)]
