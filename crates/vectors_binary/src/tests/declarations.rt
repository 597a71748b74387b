use binary_types::{
    BinaryFault, BinaryReader, DataReader, ElementReader, ExportReader, GlobalReader, ImportReader,
    MemoryReader, TableReader, TagReader, TypeIndexReader, listed, type_section,
};
use std::alloc::Global;
use wasm_leb::Cursor;
use wasm_types::{EngineId, TypeFault};

// How many entries a list has, and whether it takes all bytes; or its fault.
fn entries<R: BinaryReader>(
    alloc: Global,
    reader: &R,
    bytes: &[u8],
) -> Result<(usize, usize), BinaryFault> {
    let mut cursor = Cursor::new(bytes);
    match listed(alloc, reader, &mut cursor) {
        Ok(items) => Ok((items.len(), cursor.at())),
        Err(fault) => Err(fault),
    }
}

fn fault_of_types(alloc: Global, bytes: &[u8]) -> Option<BinaryFault> {
    match type_section(alloc, EngineId(1), &mut Cursor::new(bytes)) {
        Ok(_) => None,
        Err(fault) => Some(fault),
    }
}

// Bytes by hand from the core specification's tables.
#[test]
fn each_entry_once(rt: HostRuntime) {
    let section = &[2, 0x60, 1, 0x7f, 1, 0x63, 0x70, 0x50, 0, 0x60, 0, 0];
    let read = type_section(rt.alloc(), EngineId(1), &mut Cursor::new(section));
    let types = read.expect(&rt, "types");
    let types = types.as_slice();
    let imports = &[2, 1, 0x6d, 0, 0, 1, 0, 1, 0x61, 4, 0, 0];
    assert!(rt; entries(rt.alloc(), &ImportReader { types }, imports) == Ok((2, 12)));
    let exports = &[1, 2, 0xc3, 0xa9, 3, 0x80, 1];
    assert!(rt; entries(rt.alloc(), &ExportReader, exports) == Ok((1, 7)));
    let tables = &[
        2, 0x70, 0, 3, 0x40, 0, 0x64, 0x6c, 1, 0, 1, 0xd0, 0x71, 0x0b,
    ];
    assert!(rt; entries(rt.alloc(), &TableReader { types }, tables) == Ok((2, 14)));
    let globals = &[
        1, 0x7b, 1, 0xfd, 0x0c, 0, 0, 0, 0, 0, 0, 0, 0, 0, 0, 0, 0, 0, 0, 0, 0, 0x0b,
    ];
    assert!(rt; entries(rt.alloc(), &GlobalReader { types }, globals) == Ok((1, 22)));
    assert!(rt; entries(rt.alloc(), &MemoryReader, &[1, 1, 2, 3]) == Ok((1, 4)));
    assert!(rt; entries(rt.alloc(), &TagReader { types }, &[1, 0, 1]) == Ok((1, 3)));
    assert!(rt; entries(rt.alloc(), &TypeIndexReader { types }, &[2, 1, 0]) == Ok((2, 3)));
    let elements = &[1, 6, 1, 0x41, 0, 0x0b, 0x70, 1, 0xd2, 0, 0x0b];
    assert!(rt; entries(rt.alloc(), &ElementReader { types }, elements) == Ok((1, 11)));
    let datas = &[2, 1, 1, 0xff, 0, 0x41, 0x7f, 0x0b, 0];
    assert!(rt; entries(rt.alloc(), &DataReader { types }, datas) == Ok((2, 9)));
}

#[test]
fn each_fault_once(rt: HostRuntime) {
    let unsupported = BinaryFault::Unsupported { at: 1, code: 0x61 };
    assert!(rt; fault_of_types(rt.alloc(), &[1, 0x61]) == Some(unsupported));
    let index = BinaryFault::Index { at: 4 };
    assert!(rt; fault_of_types(rt.alloc(), &[1, 0x60, 1, 0x64, 0, 0]) == Some(index));
    let fault = TypeFault::BadSupertype;
    let refused = BinaryFault::Refused { at: 4, fault };
    let below_final = &[2, 0x60, 0, 0, 0x4f, 1, 0, 0x60, 0, 0];
    assert!(rt; fault_of_types(rt.alloc(), below_final) == Some(refused));
    let malformed = BinaryFault::Malformed;
    assert!(rt; fault_of_types(rt.alloc(), &[1, 0x4f, 2]) == Some(malformed));
}
