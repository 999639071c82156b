//! What the control plane means: the private machine of each application, the plane, and the run of a script over them.
//! These are definitions for contracts; their laws stand in `ark_laws`, and scripts that are worked from them in `ark_worked`.
#![tactic(auto)]
