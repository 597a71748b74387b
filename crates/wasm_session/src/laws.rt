//! What a host can rely on that runs commands of guests which it does not trust: what a command cannot touch, nor see.
pub use law_confined::laws::{law_c, law_g, law_k, law_s};
