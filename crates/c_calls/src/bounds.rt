ghost use Rattle.std.specs.Prelude.{◌≡◌};
ghost use Rattle.c_calls.specs.Bounds as forms;

use binary_call::Bounds;

/// What bounds a call, as C has it: any number may stand in each field.
#[repr(C)]
#[derive(Clone, Copy)]
pub struct CBounds {
    /// Whether there is a bound on fuel: none where it is 0, and else `fuel`.
    pub has_fuel: u32,
    /// How many pages of 65,536 bytes all memories may have together.
    pub pages: u32,
    /// How many elements all tables may have together.
    pub elements: u32,
    pub fuel: u64,
    /// How many turns the start function, and then the call, may take, from 1 to 1,000,000,000 each.
    pub turns: u64,
}

/// The bounds that C gave. Whether the turns are in their range is for the call to say.
pub fn bounds_in(given: CBounds) -> Bounds
    ensures { result ≡ forms.bounds_in given }
{
    Bounds {
        fuel: if given.has_fuel == 0 {
            None
        } else {
            Some(given.fuel)
        },
        turns: given.turns,
        pages: given.pages,
        elements: given.elements,
    }
}
