use super::first_of;
use std::alloc::Global;
use wasm_syntax::{Instr, LoadOp, StoreOp};

// The codes of the core specification's index of instructions.
fn load_code(op: LoadOp) -> u8 {
    match op {
        LoadOp::I32Load => 0x28,
        LoadOp::I64Load => 0x29,
        LoadOp::I32Load8S => 0x2c,
        LoadOp::I32Load8U => 0x2d,
        LoadOp::I32Load16S => 0x2e,
        LoadOp::I32Load16U => 0x2f,
        LoadOp::I64Load8S => 0x30,
        LoadOp::I64Load8U => 0x31,
        LoadOp::I64Load16S => 0x32,
        LoadOp::I64Load16U => 0x33,
        LoadOp::I64Load32S => 0x34,
        LoadOp::I64Load32U => 0x35,
    }
}

fn store_code(op: StoreOp) -> u8 {
    match op {
        StoreOp::I32Store => 0x36,
        StoreOp::I64Store => 0x37,
        StoreOp::I32Store8 => 0x3a,
        StoreOp::I32Store16 => 0x3b,
        StoreOp::I64Store8 => 0x3c,
        StoreOp::I64Store16 => 0x3d,
        StoreOp::I64Store32 => 0x3e,
    }
}

// The code of the access that is read from a code and its alignment, with the offset 5.
fn code_read(alloc: Global, code: u8, align: u8) -> Option<u8> {
    match first_of(alloc, &[code, align, 5])? {
        Instr::Load {
            op,
            memory: 0,
            offset: 5,
        } => Some(load_code(op)),
        Instr::Store {
            op,
            memory: 0,
            offset: 5,
        } => Some(store_code(op)),
        _ => None,
    }
}

// Each code, with the greatest alignment that it may have.
const ACCESSES: [(u8, u8); 19] = [
    (0x28, 2),
    (0x29, 3),
    (0x2c, 0),
    (0x2d, 0),
    (0x2e, 1),
    (0x2f, 1),
    (0x30, 0),
    (0x31, 0),
    (0x32, 1),
    (0x33, 1),
    (0x34, 2),
    (0x35, 2),
    (0x36, 2),
    (0x37, 3),
    (0x3a, 0),
    (0x3b, 1),
    (0x3c, 0),
    (0x3d, 1),
    (0x3e, 2),
];

#[test]
fn each_access_once(rt: HostRuntime) {
    for (code, align) in ACCESSES.iter() {
        assert!(rt; code_read(rt.alloc(), *code, *align) == Some(*code));
    }
}
