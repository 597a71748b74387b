//! A source over bytes in memory, and a sink that has room for so many.
#![tactic(auto)]

mod copies;
mod room_sink;
mod slice_source;

pub use room_sink::RoomSink;
pub use slice_source::SliceSource;

#[cfg(test)]
mod tests;
