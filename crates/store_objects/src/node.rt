/// What can be reached in a store: a function, an instance, a memory, a table or a global, by its number there, from 0 in
/// the order in which those of its kind were made.
#[derive(Clone, Copy, Debug, PartialEq, Eq)]
pub enum Node {
    Func(usize),
    Instance(usize),
    Memory(usize),
    Table(usize),
    Global(usize),
}
