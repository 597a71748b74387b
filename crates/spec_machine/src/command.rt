use crate::lists::NameList;
use crate::operation::Op;
use wasm_types::FuncType;

/// A command of a session.
#[derive(Drop)]
pub enum Command {
    /// Makes a function of the host: its type, the number of its body, and the objects that the body may name.
    FuncNew {
        ty: FuncType,
        body: usize,
        stored: NameList,
    },
    /// Makes an instance of a module of the session, by its number, over these imports.
    Instantiate {
        module: usize,
        imports: NameList,
    },
    /// Does an operation.
    Op(Op),
}
