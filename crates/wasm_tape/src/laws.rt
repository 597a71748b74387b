//! What a host can rely on that keeps a tape as JSON data. The function does nothing: its contract is the law, and a caller that
//! names it has the law in its proof.
ghost use Rattle.wasm_tape.specs.Laws.{LawOfWayBack};

/// What is written of a tape, over some types, is read over the same types as the tape itself.
pub fn law_tapes_come_back()
    ensures { LawOfWayBack }
{}
