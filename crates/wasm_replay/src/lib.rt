//! Recording what a run asks outside, and running it again from the record.
#![tactic(auto)]

mod ends;
mod kept;
pub mod laws;
mod played;
mod recorded;
mod recording;
mod replay;
mod replayed;
mod replayed_epochs;
mod replaying;
mod taped_epochs;
mod taped_host;
mod taping;

pub use ends::{Asked, Kind, ReplayEnd};
pub use kept::Kept;
pub use recorded::Recorded;
pub use recording::{RecordFault, record_commands};
pub use replay::replay_commands;
pub use replayed::Replayed;
pub use taped_host::TapedHost;
