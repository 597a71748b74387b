/// How far code goes: its end is reached, or never, or it is badly typed.
#[derive(Clone, Copy)]
pub(crate) enum Reach {
    Reached,
    Unreached,
    IllTyped,
}
