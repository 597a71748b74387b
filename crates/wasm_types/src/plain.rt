/// The number of an engine. Types of one engine are used together, and no others.
#[derive(Clone, Copy, Debug, PartialEq, Eq)]
pub struct EngineId(pub u64);

/// What a store counts, and refuses past its limit.
#[derive(Clone, Copy, Debug, PartialEq, Eq)]
pub enum Resource {
    Instance,
    Memory,
    Table,
}

/// Whether a global may be set after it was made.
#[derive(Clone, Copy, Debug, PartialEq, Eq)]
pub enum Mutability {
    Const,
    Var,
}

/// Whether a function type may be the supertype of another: a final one may not.
#[derive(Clone, Copy, Debug, PartialEq, Eq)]
pub enum Finality {
    Final,
    NonFinal,
}

/// The three heap types that no other is above.
#[derive(Clone, Copy, Debug, PartialEq, Eq)]
pub enum HeapTopType {
    Func,
    Extern,
    Any,
}

/// What the leading segments of a module leave in one cell of a table: what none of them wrote, a null, or a function by
/// its number in the module.
#[derive(Clone, Copy, Debug, PartialEq, Eq)]
pub enum Cell {
    Init,
    Null,
    Func(u32),
}
