//! Host data that is a limiter by a pool: what all memories together may have, and what all tables together may have.
#![tactic(auto)]

mod pooled;

pub use pooled::Pooled;
