/// What the words say of a run.
#[derive(Clone, Copy, PartialEq, Eq)]
pub struct Options {
    /// The fuel that there is; without it code consumes none.
    pub fuel: Option<u64>,
    /// How many turns a command may take, from 1 to 1,000,000,000.
    pub turns: u64,
    /// How many pages of 65,536 bytes all memories may have together.
    pub pages: u32,
    /// How many elements all tables may have together.
    pub elements: u32,
    /// How many bytes the input has before the module, which the call is given; without it the call is given none.
    pub bytes: Option<u32>,
}

/// An option of the command.
#[derive(Clone, Copy, PartialEq, Eq)]
pub enum OptionName {
    Fuel,
    Turns,
    Pages,
    Elements,
    In,
}
