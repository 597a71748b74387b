mod accesses;
mod codes;

use binary_code::{CodeContext, Functions, code_section};
use binary_types::{BinaryFault, type_section};
use std::alloc::Global;
use wasm_leb::Cursor;
use wasm_syntax::Instr;
use wasm_types::{EngineId, TypeFault};

// What the code section reads of one body without locals, for a function of type 0, where the one type is `() -> ()`, and
// of another engine than that of the code.
fn read(alloc: Global, code: &[u8]) -> Result<Functions, BinaryFault> {
    let types = type_section(alloc, EngineId(1), &mut Cursor::new(&[1, 0x60, 0, 0]))?;
    let Ok(size) = u8::try_from(code.len() + 2) else {
        return Err(BinaryFault::OutOfMemory);
    };
    let mut bytes = Vec::new(alloc);
    if bytes.extend_from_slice(&[1, size, 0]).is_err()
        || bytes.extend_from_slice(code).is_err()
        || bytes.push(0x0b).is_err()
    {
        return Err(BinaryFault::OutOfMemory);
    }
    let context = CodeContext {
        engine: EngineId(2),
        declared: 1,
        counted: true,
    };
    let mut cursor = Cursor::new(bytes.as_slice());
    code_section(alloc, context, &[0], types, &mut cursor)
}

fn first_of(alloc: Global, code: &[u8]) -> Option<Instr> {
    let functions = read(alloc, code).ok()?;
    let body = functions
        .functions
        .as_slice()
        .first()?
        .blocks
        .as_slice()
        .first()?;
    body.instrs.as_slice().first().copied()
}

fn fault_of(alloc: Global, code: &[u8]) -> Option<BinaryFault> {
    read(alloc, code).err()
}

#[test]
fn lists_within_lists(rt: HostRuntime) {
    // block (result i32), if, else, end, br_table, end, if, end: the type of one result is added, once.
    let code = &[
        0x02, 0x7f, 0x04, 0x40, 0x05, 0x01, 0x0b, 0x0e, 0, 0, 0x0b, 0x04, 0x7f, 0x0b,
    ];
    let read = read(rt.alloc(), code).expect(&rt, "code");
    assert!(rt; read.types.len() == 2);
    let functions = read.functions.as_slice();
    let body = functions.first().expect(&rt, "a function");
    let blocks = body.blocks.as_slice();
    assert!(rt; blocks.len() == 6);
    assert!(rt; body.targets.len() == 1);
    let outermost = blocks.first().expect(&rt, "a block").instrs.as_slice();
    assert!(rt; matches!(outermost, [Instr::Block(1), Instr::If(4, 5)]));
    let inner = blocks.get(1).expect(&rt, "a block");
    assert!(rt; inner.ty == 1);
    assert!(rt;
        matches!(
            inner.instrs.as_slice(),
            [Instr::If(2, 3), Instr::BrTable(0)]
        )
    );
    let other = blocks.get(3).expect(&rt, "a block");
    assert!(rt; other.ty == 0);
    assert!(rt; matches!(other.instrs.as_slice(), [Instr::Nop]));
}

#[test]
fn each_fault_once(rt: HostRuntime) {
    // The code begins behind three bytes.
    let unsupported = BinaryFault::Unsupported { at: 3, code: 0x1c };
    assert!(rt; fault_of(rt.alloc(), &[0x1c]) == Some(unsupported));
    let long = BinaryFault::Unsupported { at: 4, code: 64530 };
    assert!(rt; fault_of(rt.alloc(), &[0xfc, 0x12]) == Some(long));
    let index = BinaryFault::Index { at: 4 };
    assert!(rt; fault_of(rt.alloc(), &[0x11, 1, 0]) == Some(index));
    assert!(rt; fault_of(rt.alloc(), &[0x02, 1]) == Some(index));
    let alignment = BinaryFault::Alignment { at: 4 };
    assert!(rt; fault_of(rt.alloc(), &[0x28, 3, 0xff]) == Some(alignment));
    let refused = BinaryFault::Refused {
        at: 4,
        fault: TypeFault::WrongEngine,
    };
    assert!(rt; fault_of(rt.alloc(), &[0x02, 0x64, 0x00, 0x0b]) == Some(refused));
    let malformed = Some(BinaryFault::Malformed);
    assert!(rt; fault_of(rt.alloc(), &[0x05]) == malformed);
    assert!(rt; fault_of(rt.alloc(), &[0x02, 0x40, 0x05, 0x0b]) == malformed);
    assert!(rt; fault_of(rt.alloc(), &[0x0b]) == malformed);
    assert!(rt; fault_of(rt.alloc(), &[0x02, 0x40]) == malformed);
}
