/// Whom a store asks: whether it asks a limiter, a hook, and a deadline behaviour.
#[derive(Clone, Copy)]
pub struct Flags {
    /// Whether the limiter is asked.
    pub limited: bool,
    /// Whether a hook is asked.
    pub hooked: bool,
    /// Whether a deadline behaviour is asked.
    pub behaving: bool,
}
