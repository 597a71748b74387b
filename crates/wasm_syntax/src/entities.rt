/// What an export names: an index of one of the five index spaces.
#[derive(Clone, Copy, PartialEq, Eq)]
pub enum EntityIndex {
    Func(u32),
    Global(u32),
    Table(u32),
    Memory(u32),
    Tag(u32),
}

/// An export of a module without its name: the number of the module, and the entity.
#[derive(Clone, Copy, PartialEq, Eq)]
pub struct ModuleExport {
    pub module: u64,
    pub entity: EntityIndex,
}
