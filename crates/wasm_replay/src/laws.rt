//! What a host can rely on that records a run and replays it. The functions do nothing: their contracts are the laws.
ghost use Rattle.wasm_replay.specs.Recordings.{RecordMoves};
ghost use Rattle.wasm_replay.specs.ReplayLaws.{LawOfReplays, ReplaysAgree};

use crate::taped_host::TapedHost;
use wasm_meter::{EpochSource, HostData};

/// A replay of a record is the recorded run: where `record_commands` gave a tape, and `replay_commands` was given it with
/// an equal store, the same modules, replies before and commands, and as many bodies, then what they promise of both runs
/// tells that the replay ended `Same`, with equal replies and an equal store.
pub fn law_replays_are_the_recorded_run<T: HostData, H: TapedHost<T>, E: EpochSource>()
    ensures replays { LawOfReplays (RecordMoves T.growths H.has E.readings H.steps) }
{}

/// Two replays of one tape agree, however they end: from equal stores, with the same modules, replies before and commands,
/// and over as many bodies, they come to equal replies, equal stores and the same end.
pub fn law_replays_agree()
    ensures { ReplaysAgree }
{}
