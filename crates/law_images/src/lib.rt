//! Images in place of the segments that lead: an instance that begins with them comes to the same as one whose segments
//! are taken one by one. As lemmas over the definitions of instantiation.
#![tactic(auto)]

pub mod laws;
