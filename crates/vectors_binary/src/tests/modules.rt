use wasm_binary::{BinaryFault, EngineId, read_module};
use wasm_syntax::EntityIndex;
use wasm_types::TypeFault;

// A function that gives 7, exported as `f`, by the core specification's tables.
const SEVEN: [u8; 34] = [
    0x00, 0x61, 0x73, 0x6d, 0x01, 0x00, 0x00, 0x00, 0x01, 0x05, 0x01, 0x60, 0x00, 0x01, 0x7f, 0x03,
    0x02, 0x01, 0x00, 0x07, 0x05, 0x01, 0x01, 0x66, 0x00, 0x00, 0x0a, 0x06, 0x01, 0x04, 0x00, 0x41,
    0x07, 0x0b,
];

#[test]
fn a_module_of_an_engine_and_with_a_number(rt: HostRuntime) {
    let Ok(read) = read_module(rt.alloc(), EngineId(3), 9, &SEVEN) else {
        panic!(rt; "no module");
    };
    assert!(rt; read.engine == EngineId(3));
    assert!(rt; read.number == 9);
    assert!(rt; read.types.len() == 1);
    let [function] = read.functions.as_slice() else {
        panic!(rt; "not one function");
    };
    assert!(rt; function.ty == 0);
    assert!(rt; function.blocks.len() == 1);
    let [export] = read.exports.as_slice() else {
        panic!(rt; "not one export");
    };
    assert!(rt; export.name.as_str() == "f");
    assert!(rt; export.entity == EntityIndex::Func(0));
}

fn fault_of(rt: &HostRuntime, bytes: &[u8]) -> Option<BinaryFault> {
    read_module(rt.alloc(), EngineId(1), 0, bytes).err()
}

#[test]
fn each_fault_at_its_place(rt: HostRuntime) {
    let mut other = SEVEN;
    other[31] = 0x1c;
    let unsupported = BinaryFault::Unsupported { at: 31, code: 28 };
    assert!(rt; fault_of(&rt, &other) == Some(unsupported));
    let mut other = SEVEN;
    other[18] = 0x01;
    assert!(rt; fault_of(&rt, &other) == Some(BinaryFault::Index { at: 18 }));
    // The count of bodies is that of the functions.
    let mut other = SEVEN;
    other[28] = 0x02;
    assert!(rt; fault_of(&rt, &other) == Some(BinaryFault::Malformed));
    // The functions have no bodies.
    assert!(rt; fault_of(&rt, &SEVEN[..26]) == Some(BinaryFault::Malformed));
    let memory = &[
        0x00, 0x61, 0x73, 0x6d, 0x01, 0x00, 0x00, 0x00, 0x05, 0x04, 0x01, 0x01, 0x02, 0x01,
    ];
    let fault = TypeFault::BadLimits;
    assert!(rt; fault_of(&rt, memory) == Some(BinaryFault::Refused { at: 11, fault }));
}
