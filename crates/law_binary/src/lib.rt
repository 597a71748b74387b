//! The binary format as a grammar, apart from any order of reading, and that what is read is what the grammar says: what
//! bytes spell, and which fault they have. As laws over the definitions by which bytes are read.
#![tactic(auto)]

pub mod laws;
