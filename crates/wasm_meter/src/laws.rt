//! What follows from the definitions that the contracts cite. The function does nothing: its contract is the law, and a
//! caller that names it has the law in its proof.
ghost use Rattle.wasm_meter.specs.TankLaws.{IsFilledExactly, KeepsWhatIsLeft, KeepsTheNumber};

/// A tank that is filled with so much has just so much. To be filled again keeps what is left, and a check keeps the
/// number, below zero too.
pub fn law_tank()
    ensures filled { IsFilledExactly }
    ensures refuelled { KeepsWhatIsLeft }
    ensures checked { KeepsTheNumber }
{}
