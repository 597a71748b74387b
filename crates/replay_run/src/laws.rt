//! What is promised of a record and a replay together. The function does nothing: its contract is the law.
ghost use Rattle.replay_run.specs.Laws.{LawOfRecords};

use wasm_meter::EpochSource;

/// A replay of a script by the tape of a record of it ends `Same`, with the same replies.
pub fn law_replays_are_the_record<E: EpochSource>()
    ensures same { LawOfRecords E.readings }
{}
