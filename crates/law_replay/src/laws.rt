//! What a host can rely on that keeps what a run heard, and runs it again. The function does nothing: its contract is the
//! law, and a caller that names it has the law in its proof.
ghost use Rattle.law_replay.specs.Replays.{LawOfTapable, LawOfTapes};

/// Two runs of the same commands from one state, without a hook and a deadline behaviour, over hosts that have just the
/// bodies below one number, are one run where one tape holds the questions and the used answers of both: they heard the
/// same, and come to the same replies and the same store (`tapes`). What such a run heard is all on its tape, but for
/// whether there is a body (`tapable`).
pub fn law_tapes()
    ensures tapes { LawOfTapes }
    ensures tapable { LawOfTapable }
{}
