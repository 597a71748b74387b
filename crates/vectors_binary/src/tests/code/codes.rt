use super::first_of;
use std::alloc::Global;
use wasm_syntax::{BinOp, Instr, UnOp};
use wasm_types::HeapTopType;

fn is_unary(alloc: Global, code: u8, op: UnOp) -> bool {
    matches!(first_of(alloc, &[code]), Some(Instr::Unary(read)) if read == op)
}

fn is_binary(alloc: Global, code: u8, op: BinOp) -> bool {
    matches!(first_of(alloc, &[code]), Some(Instr::Binary(read)) if read == op)
}

// The codes of the core specification's index of instructions.
const UNARY: [(u8, UnOp); 16] = [
    (0x45, UnOp::I32Eqz),
    (0x50, UnOp::I64Eqz),
    (0x67, UnOp::I32Clz),
    (0x68, UnOp::I32Ctz),
    (0x69, UnOp::I32Popcnt),
    (0x79, UnOp::I64Clz),
    (0x7a, UnOp::I64Ctz),
    (0x7b, UnOp::I64Popcnt),
    (0xa7, UnOp::I32WrapI64),
    (0xac, UnOp::I64ExtendI32S),
    (0xad, UnOp::I64ExtendI32U),
    (0xc0, UnOp::I32Extend8S),
    (0xc1, UnOp::I32Extend16S),
    (0xc2, UnOp::I64Extend8S),
    (0xc3, UnOp::I64Extend16S),
    (0xc4, UnOp::I64Extend32S),
];

const BINARY: [(u8, BinOp); 50] = [
    (0x46, BinOp::I32Eq),
    (0x47, BinOp::I32Ne),
    (0x48, BinOp::I32LtS),
    (0x49, BinOp::I32LtU),
    (0x4a, BinOp::I32GtS),
    (0x4b, BinOp::I32GtU),
    (0x4c, BinOp::I32LeS),
    (0x4d, BinOp::I32LeU),
    (0x4e, BinOp::I32GeS),
    (0x4f, BinOp::I32GeU),
    (0x51, BinOp::I64Eq),
    (0x52, BinOp::I64Ne),
    (0x53, BinOp::I64LtS),
    (0x54, BinOp::I64LtU),
    (0x55, BinOp::I64GtS),
    (0x56, BinOp::I64GtU),
    (0x57, BinOp::I64LeS),
    (0x58, BinOp::I64LeU),
    (0x59, BinOp::I64GeS),
    (0x5a, BinOp::I64GeU),
    (0x6a, BinOp::I32Add),
    (0x6b, BinOp::I32Sub),
    (0x6c, BinOp::I32Mul),
    (0x6d, BinOp::I32DivS),
    (0x6e, BinOp::I32DivU),
    (0x6f, BinOp::I32RemS),
    (0x70, BinOp::I32RemU),
    (0x71, BinOp::I32And),
    (0x72, BinOp::I32Or),
    (0x73, BinOp::I32Xor),
    (0x74, BinOp::I32Shl),
    (0x75, BinOp::I32ShrS),
    (0x76, BinOp::I32ShrU),
    (0x77, BinOp::I32Rotl),
    (0x78, BinOp::I32Rotr),
    (0x7c, BinOp::I64Add),
    (0x7d, BinOp::I64Sub),
    (0x7e, BinOp::I64Mul),
    (0x7f, BinOp::I64DivS),
    (0x80, BinOp::I64DivU),
    (0x81, BinOp::I64RemS),
    (0x82, BinOp::I64RemU),
    (0x83, BinOp::I64And),
    (0x84, BinOp::I64Or),
    (0x85, BinOp::I64Xor),
    (0x86, BinOp::I64Shl),
    (0x87, BinOp::I64ShrS),
    (0x88, BinOp::I64ShrU),
    (0x89, BinOp::I64Rotl),
    (0x8a, BinOp::I64Rotr),
];

#[test]
fn each_operator_once(rt: HostRuntime) {
    for (code, op) in UNARY.iter() {
        assert!(rt; is_unary(rt.alloc(), *code, *op));
    }
    for (code, op) in BINARY.iter() {
        assert!(rt; is_binary(rt.alloc(), *code, *op));
    }
}

// The code of an instruction, and its one index.
fn plain_code(instr: Instr) -> Option<(u8, u32)> {
    match instr {
        Instr::Unreachable => Some((0x00, 0)),
        Instr::Nop => Some((0x01, 0)),
        Instr::Br(label) => Some((0x0c, label)),
        Instr::BrIf(label) => Some((0x0d, label)),
        Instr::Return => Some((0x0f, 0)),
        Instr::Call(function) => Some((0x10, function)),
        Instr::Drop => Some((0x1a, 0)),
        Instr::Select => Some((0x1b, 0)),
        Instr::LocalGet(index) => Some((0x20, index)),
        Instr::LocalSet(index) => Some((0x21, index)),
        Instr::LocalTee(index) => Some((0x22, index)),
        Instr::GlobalGet(index) => Some((0x23, index)),
        Instr::GlobalSet(index) => Some((0x24, index)),
        Instr::TableGet(index) => Some((0x25, index)),
        Instr::TableSet(index) => Some((0x26, index)),
        Instr::MemorySize(index) => Some((0x3f, index)),
        Instr::MemoryGrow(index) => Some((0x40, index)),
        Instr::RefIsNull => Some((0xd1, 0)),
        Instr::RefFunc(index) => Some((0xd2, index)),
        _ => None,
    }
}

// The same of a code behind 0xfc.
fn long_code(instr: Instr) -> Option<(u8, u32)> {
    match instr {
        Instr::DataDrop(segment) => Some((0x09, segment)),
        Instr::MemoryFill(index) => Some((0x0b, index)),
        Instr::ElemDrop(segment) => Some((0x0d, segment)),
        Instr::TableGrow(index) => Some((0x0f, index)),
        Instr::TableSize(index) => Some((0x10, index)),
        Instr::TableFill(index) => Some((0x11, index)),
        _ => None,
    }
}

// Codes, and the index 1 or none; where it has none, the byte 1 behind it is a `nop`.
const PLAIN: [(u8, u32); 19] = [
    (0x00, 0),
    (0x01, 0),
    (0x0c, 1),
    (0x0d, 1),
    (0x0f, 0),
    (0x10, 1),
    (0x1a, 0),
    (0x1b, 0),
    (0x20, 1),
    (0x21, 1),
    (0x22, 1),
    (0x23, 1),
    (0x24, 1),
    (0x25, 1),
    (0x26, 1),
    (0x3f, 1),
    (0x40, 1),
    (0xd1, 0),
    (0xd2, 1),
];

const LONG: [u8; 6] = [0x09, 0x0b, 0x0d, 0x0f, 0x10, 0x11];

fn reads_plain(alloc: Global, code: u8, index: u32) -> bool {
    match first_of(alloc, &[code, 1]) {
        Some(instr) => plain_code(instr) == Some((code, index)),
        None => false,
    }
}

fn reads_long(alloc: Global, code: u8) -> bool {
    match first_of(alloc, &[0xfc, code, 1]) {
        Some(instr) => long_code(instr) == Some((code, 1)),
        None => false,
    }
}

#[test]
fn each_plain_code_once(rt: HostRuntime) {
    for (code, index) in PLAIN.iter() {
        assert!(rt; reads_plain(rt.alloc(), *code, *index));
    }
    for code in LONG.iter() {
        assert!(rt; reads_long(rt.alloc(), *code));
    }
}

#[test]
fn each_code_with_more_once(rt: HostRuntime) {
    assert!(rt;
        matches!(
            first_of(rt.alloc(), &[0x0e, 1, 2, 3]),
            Some(Instr::BrTable(0))
        )
    );
    assert!(rt;
        matches!(
            first_of(rt.alloc(), &[0x11, 0, 1]),
            Some(Instr::CallIndirect { ty: 0, table: 1 })
        )
    );
    assert!(rt;
        matches!(
            first_of(rt.alloc(), &[0x41, 0x7f]),
            Some(Instr::Const32(-1))
        )
    );
    assert!(rt;
        matches!(
            first_of(rt.alloc(), &[0x42, 0x7f]),
            Some(Instr::Const64(-1))
        )
    );
    assert!(rt;
        matches!(
            first_of(rt.alloc(), &[0xd0, 0x6f]),
            Some(Instr::RefNull(HeapTopType::Extern))
        )
    );
    assert!(rt;
        matches!(
            first_of(rt.alloc(), &[0xfc, 0x08, 1, 2]),
            Some(Instr::MemoryInit {
                memory: 2,
                segment: 1
            })
        )
    );
    assert!(rt;
        matches!(
            first_of(rt.alloc(), &[0xfc, 0x0a, 1, 2]),
            Some(Instr::MemoryCopy { dst: 1, src: 2 })
        )
    );
    assert!(rt;
        matches!(
            first_of(rt.alloc(), &[0xfc, 0x0c, 1, 2]),
            Some(Instr::TableInit {
                table: 2,
                segment: 1
            })
        )
    );
    assert!(rt;
        matches!(
            first_of(rt.alloc(), &[0xfc, 0x0e, 1, 2]),
            Some(Instr::TableCopy { dst: 1, src: 2 })
        )
    );
}
