use code_run::Rules;

/// What bounds a call: the rules of its code, whether a hook is asked, and how many turns it may take.
#[derive(Clone, Copy)]
pub struct Bounds {
    pub rules: Rules,
    pub hooked: bool,
    pub turns: u64,
}
