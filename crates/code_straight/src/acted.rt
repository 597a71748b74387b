ghost use Rattle.std.specs.Prelude.{◌≡◌};
ghost use Rattle.code_straight.specs.Acting.{done_or};

use wasm_values::Trap;

/// What an instruction came to.
#[derive(Clone, Copy)]
pub enum Acted {
    /// It did what it does.
    Goes,
    /// It trapped, and changed no object.
    Traps(Trap),
    /// The operands, the locals or what its indices name do not fit it, which never comes in valid code; it changed
    /// no object.
    Sticks,
}

/// Done, or a trap.
#[inline]
pub fn done_or(trap: Trap, done: bool) -> Acted
    ensures { result ≡ done_or trap done }
{
    if done {
        return Acted::Goes;
    }
    Acted::Traps(trap)
}
