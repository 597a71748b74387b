//! Calls and instantiations beside guests that cannot meet, by a host that hands out no function but those that its
//! bodies were shown: the guests stay apart, and what each other guest reaches stays as it was.
#![tactic(auto)]

mod guarded;

pub use guarded::{call_guest, make_guest};
