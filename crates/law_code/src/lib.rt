//! Code of a valid module is never stuck, and each way that it ends leaves a well-formed store:
//! lemmas over the definitions of how code runs.
#![tactic(auto)]

pub mod laws;
