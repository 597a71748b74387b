ghost use Rattle.std.specs.Prelude.{◌≡◌, IfOk};
ghost use Rattle.wasm_syntax.specs.Constants.{null_type};
ghost use Rattle.wasm_syntax.specs.Instructions.{load_type, store_type};
ghost use Rattle.wasm_syntax.specs.Operators.{unary_operand, unary_result};
ghost use Rattle.wasm_syntax.specs.Operators.{binary_operands, binary_result};

use wasm_syntax::{BinOp, LoadOp, StoreOp, UnOp};
use wasm_types::{HeapTopType, HeapType, RefType, ValType};

// The type of the value that a load reads.
pub(crate) fn load_type(op: LoadOp) -> ValType
    ensures { result ≡ load_type op }
{
    match op {
        LoadOp::I32Load
        | LoadOp::I32Load8S
        | LoadOp::I32Load8U
        | LoadOp::I32Load16S
        | LoadOp::I32Load16U => ValType::I32,
        LoadOp::I64Load
        | LoadOp::I64Load8S
        | LoadOp::I64Load8U
        | LoadOp::I64Load16S
        | LoadOp::I64Load16U
        | LoadOp::I64Load32S
        | LoadOp::I64Load32U => ValType::I64,
    }
}

// The type of the value that a store writes.
pub(crate) fn store_type(op: StoreOp) -> ValType
    ensures { result ≡ store_type op }
{
    match op {
        StoreOp::I32Store | StoreOp::I32Store8 | StoreOp::I32Store16 => ValType::I32,
        StoreOp::I64Store | StoreOp::I64Store8 | StoreOp::I64Store16 | StoreOp::I64Store32 =>
            ValType::I64,
    }
}

// The type of the null of a family.
pub(crate) fn null_type(family: HeapTopType) -> ValType
    ensures { result ≡ null_type family }
{
    match family {
        HeapTopType::Func => ValType::nullfuncref(),
        HeapTopType::Extern => ValType::nullexternref(),
        HeapTopType::Any => ValType::nullref(),
    }
}

// The type of the operand of an operator.
pub(crate) fn unary_operand(op: UnOp) -> ValType
    ensures { result ≡ unary_operand op }
{
    match op {
        UnOp::I32Clz
        | UnOp::I32Ctz
        | UnOp::I32Popcnt
        | UnOp::I32Eqz
        | UnOp::I32Extend8S
        | UnOp::I32Extend16S
        | UnOp::I64ExtendI32S
        | UnOp::I64ExtendI32U => ValType::I32,
        UnOp::I64Clz
        | UnOp::I64Ctz
        | UnOp::I64Popcnt
        | UnOp::I64Eqz
        | UnOp::I64Extend8S
        | UnOp::I64Extend16S
        | UnOp::I64Extend32S
        | UnOp::I32WrapI64 => ValType::I64,
    }
}

// The type of the result of an operator of one operand.
pub(crate) fn unary_result(op: UnOp) -> ValType
    ensures { result ≡ unary_result op }
{
    match op {
        UnOp::I32Clz
        | UnOp::I32Ctz
        | UnOp::I32Popcnt
        | UnOp::I32Eqz
        | UnOp::I32Extend8S
        | UnOp::I32Extend16S
        | UnOp::I64Eqz
        | UnOp::I32WrapI64 => ValType::I32,
        UnOp::I64Clz
        | UnOp::I64Ctz
        | UnOp::I64Popcnt
        | UnOp::I64Extend8S
        | UnOp::I64Extend16S
        | UnOp::I64Extend32S
        | UnOp::I64ExtendI32S
        | UnOp::I64ExtendI32U => ValType::I64,
    }
}

// The type of both operands of an operator.
pub(crate) fn binary_operands(op: BinOp) -> ValType
    ensures { result ≡ binary_operands op }
{
    match op {
        BinOp::I32Add
        | BinOp::I32Sub
        | BinOp::I32Mul
        | BinOp::I32DivS
        | BinOp::I32DivU
        | BinOp::I32RemS
        | BinOp::I32RemU
        | BinOp::I32And
        | BinOp::I32Or
        | BinOp::I32Xor
        | BinOp::I32Shl
        | BinOp::I32ShrS
        | BinOp::I32ShrU
        | BinOp::I32Rotl
        | BinOp::I32Rotr
        | BinOp::I32Eq
        | BinOp::I32Ne
        | BinOp::I32LtS
        | BinOp::I32LtU
        | BinOp::I32GtS
        | BinOp::I32GtU
        | BinOp::I32LeS
        | BinOp::I32LeU
        | BinOp::I32GeS
        | BinOp::I32GeU => ValType::I32,
        BinOp::I64Add
        | BinOp::I64Sub
        | BinOp::I64Mul
        | BinOp::I64DivS
        | BinOp::I64DivU
        | BinOp::I64RemS
        | BinOp::I64RemU
        | BinOp::I64And
        | BinOp::I64Or
        | BinOp::I64Xor
        | BinOp::I64Shl
        | BinOp::I64ShrS
        | BinOp::I64ShrU
        | BinOp::I64Rotl
        | BinOp::I64Rotr
        | BinOp::I64Eq
        | BinOp::I64Ne
        | BinOp::I64LtS
        | BinOp::I64LtU
        | BinOp::I64GtS
        | BinOp::I64GtU
        | BinOp::I64LeS
        | BinOp::I64LeU
        | BinOp::I64GeS
        | BinOp::I64GeU => ValType::I64,
    }
}

// The type of the result of an operator of two operands.
pub(crate) fn binary_result(op: BinOp) -> ValType
    ensures { result ≡ binary_result op }
{
    match op {
        BinOp::I32Add
        | BinOp::I32Sub
        | BinOp::I32Mul
        | BinOp::I32DivS
        | BinOp::I32DivU
        | BinOp::I32RemS
        | BinOp::I32RemU
        | BinOp::I32And
        | BinOp::I32Or
        | BinOp::I32Xor
        | BinOp::I32Shl
        | BinOp::I32ShrS
        | BinOp::I32ShrU
        | BinOp::I32Rotl
        | BinOp::I32Rotr
        | BinOp::I32Eq
        | BinOp::I32Ne
        | BinOp::I32LtS
        | BinOp::I32LtU
        | BinOp::I32GtS
        | BinOp::I32GtU
        | BinOp::I32LeS
        | BinOp::I32LeU
        | BinOp::I32GeS
        | BinOp::I32GeU
        | BinOp::I64Eq
        | BinOp::I64Ne
        | BinOp::I64LtS
        | BinOp::I64LtU
        | BinOp::I64GtS
        | BinOp::I64GtU
        | BinOp::I64LeS
        | BinOp::I64LeU
        | BinOp::I64GeS
        | BinOp::I64GeU => ValType::I32,
        BinOp::I64Add
        | BinOp::I64Sub
        | BinOp::I64Mul
        | BinOp::I64DivS
        | BinOp::I64DivU
        | BinOp::I64RemS
        | BinOp::I64RemU
        | BinOp::I64And
        | BinOp::I64Or
        | BinOp::I64Xor
        | BinOp::I64Shl
        | BinOp::I64ShrS
        | BinOp::I64ShrU
        | BinOp::I64Rotl
        | BinOp::I64Rotr => ValType::I64,
    }
}
