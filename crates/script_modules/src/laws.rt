//! What holds of the format, as contracts.

ghost use Rattle.script_modules.specs.Laws.{DepthIsEnough};

/// Code is read alike to every depth that is at least that of the data, which is at most 127 where a text spells it. So
/// the limit on how deep code nests decides nothing.
pub fn law_depth()
    ensures { DepthIsEnough }
{}
