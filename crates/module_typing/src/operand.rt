use wasm_types::ValType;

// An operand, by its type; or by the local that it was read from, whose type it has. So an operand that goes back to its
// local, as most do, is of its type without a comparison of the two, which takes time in the size of the type.
#[derive(Drop)]
pub(crate) enum Operand {
    Own(ValType),
    Local(u32),
}
